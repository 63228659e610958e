// The rewriting program (R94): one card in, the same card with TB alone out. All that is said of it goes to standard error: the slots whose records
// were TA, a refusal, or trouble outside the card. Where it cannot be said, nobody is left to be told.
#![tactic(auto)]

// R94: the slots that a word has a bit for, the lowest first; nothing where it has none.
fn name_slots(rt: &impl Eprint, word: u64) {
    if word == 0 {
        return;
    }
    let _ = eprint!(rt; "reordered");
    for slot in 0..16u32 {
        if word >> slot & 1 == 1 {
            let _ = eprint!(rt; " {slot}");
        }
    }
    let _ = eprintln!(rt);
}

// R94: writes a card anew, or says a refusal's number and its place. The longest card has 208 bytes (R55), so that every card fits.
#[tactic(auto, using(calls::proofs::Theorems::rewritten_fits))]
fn rewrite(rt: &(impl Print + Eprint), card: &[u8]) {
    let mut anew = [0u8; 208];
    let r = calls::cards::rewrite(card, &mut anew);
    if r.number > 0 {
        let _ = eprintln!(rt; "refused {} {}", r.number, r.place);
    } else if rt.write_all(&anew[..r.value as usize]).is_ok() {
        name_slots(rt, r.place);
    } else {
        let _ = eprintln!(rt; "rewrite: the card could not be written");
    }
}

// R94: one byte more is read than the longest card has: no byte after it changes what is written (the theorem `rewrite_by_209` of calls).
// It is the main function of `answer` but for the name and what is called: a closure would put more words around them than they share.
fn main(rt: HostRuntime) {
    let mut card = [0u8; 209];
    match input::take(&mut rt.stdin(), &mut card) {
        Ok(n) => rewrite(&rt, &card[..n]),
        Err(_) => {
            let _ = eprintln!(rt; "rewrite: the card could not be read");
        }
    }
}
