// A card's answer and its line, the card written anew, and the run of its table with its request admitted.
ghost use Rattle.std.specs.Prelude.{◌≡◌, length};
ghost use Rattle.table.specs.Admit.{admit_of};
ghost use Rattle.reply.specs.Line.{answer_line, held_after};
ghost use Rattle.calls.specs.Results.{result_of};
ghost use Rattle.calls.specs.Cards.{answer_of, put_of, rewrite_as, rewritten_of, ticks_run, run_admitted};

use crate::Returned;
use table::{Refusal, Request, Table, ground};

// R60: the reader's refusal, or what ask answers
pub fn answer(card: &[u8]) -> Result<u64, Refusal>
    ensures { result ≡ answer_of card.now }
{
    let card = reader::try_read(card)?.card;
    ask::ask(card.table, card.request)
}

// R33, R62: the line of an answer in a lent buffer, or refusal 13.
pub fn put_line(a: Result<u64, Refusal>, out: &mut [u8]) -> Returned
    ensures { (result ≡ result_of (put_of (answer_line a) out.old)) × (out.new ≡ held_after (answer_line a) out.old) }
{
    crate::written(
        0,
        reply::put_reply(a, out).ok_or(Refusal::new(ground::NO_ROOM, 0)),
    )
}

// R65: the card's twin goes into the lent buffer, or the card is refused, or the buffer is too short, and then every byte of it stays.
pub fn rewrite(card: &[u8], out: &mut [u8]) -> Returned
    ensures { (result ≡ rewrite_as card.now (length out.old)) × (out.new ≡ rewritten_of card.now out.old) }
{
    match reader::try_read(card) {
        Ok(read) => crate::written(u64::from(read.turned), writer::write(&read.card, out)),
        Err(x) => Returned::from(x),
    }
}

// R66: steps a table so many times, or to the first refusal, and counts the ticks in which a line ran.
fn run_table(start: Table, ticks: u16) -> Result<u64, Refusal>
    ensures { result ≡ ticks_run ticks start }
{
    let mut t = start;
    let mut ran = 0;
    for _ in 0..ticks {
        let s = driver::driven(t);
        ran += u64::from(s.answer?.is_some());
        t = s.table;
    }
    Ok(ran)
}

// R66: admits the request and steps the table that this leaves.
pub fn run(t: Table, q: Request, ticks: u16) -> Returned
    ensures { result ≡ result_of (run_admitted ticks (admit_of t q)) }
{
    let admitted = admit::admit(t, q);
    match admitted.answer {
        Ok(_) => Returned::at(0, run_table(admitted.table, ticks)),
        Err(x) => Returned::from(x),
    }
}
