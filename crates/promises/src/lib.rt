// The promises have no code: specs/ states them, proofs/ keeps them.
#![tactic(auto)]
