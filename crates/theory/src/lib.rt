// The theory has no code: proofs/ holds it.
#![tactic(auto)]
