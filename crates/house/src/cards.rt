// Whole cards: the line of a card's answer, a card written anew, and a card's request admitted and run.
ghost use Rattle.std.specs.Prelude.{◌≡◌, length};
ghost use Rattle.reply.specs.Line.{held_after};
ghost use Rattle.calls.specs.Results.{result_of};
ghost use Rattle.calls.specs.Cards.{line_for, put_of, rewrite_as, rewritten_of, run_of};

use calls::Returned;

// R64: the line of a card's answer goes into the lent buffer, or the buffer is too short and every byte stays.
#[unsafe(no_mangle)]
pub extern "C" fn trimthuel_answer(card: &[u8], out: &mut [u8]) -> Returned
    ensures { (result ≡ result_of (put_of (line_for card.now) out.old)) × (out.new ≡ held_after (line_for card.now) out.old) }
{
    calls::cards::put_line(calls::cards::answer(card), out)
}

// R65: the card is read and written anew with TB alone, or refused, and then every byte of the lent buffer stays.
#[unsafe(no_mangle)]
pub extern "C" fn trimthuel_rewrite(card: &[u8], out: &mut [u8]) -> Returned
    ensures { (result ≡ rewrite_as card.now (length out.old)) × (out.new ≡ rewritten_of card.now out.old) }
{
    calls::cards::rewrite(card, out)
}

// R66: the card's request is admitted and the table stepped so many times: the number of ticks in which a line ran, or the first refusal.
#[unsafe(no_mangle)]
pub extern "C" fn trimthuel_run(card: &[u8], ticks: u16) -> Returned
    ensures { result ≡ result_of (run_of card.now ticks) }
{
    match reader::try_read(card) {
        Ok(read) => calls::cards::run(read.card.table, read.card.request, ticks),
        Err(x) => Returned::from(x),
    }
}
