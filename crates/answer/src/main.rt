// The answering program (R60): one card in, one line out. Trouble outside the card is a message on standard error, and no line; where it cannot be
// said either, nobody is left to be told.
#![tactic(auto)]

// R60, R61: says the line of a card.
fn answer(rt: &(impl Print + Eprint), card: &[u8]) {
    let reply = reply::reply_to(calls::cards::answer(card));
    if rt.write_all(reply.line()).is_err() {
        let _ = eprintln!(rt; "answer: the answer could not be written");
    }
}

// R60: one byte more is read than the longest card has: no byte after it changes an answer (the theorem `answer_by_209` of calls).
fn main(rt: HostRuntime) {
    let mut card = [0u8; 209];
    match input::take(&mut rt.stdin(), &mut card) {
        Ok(n) => answer(&rt, &card[..n]),
        Err(_) => {
            let _ = eprintln!(rt; "answer: the card could not be read");
        }
    }
}
