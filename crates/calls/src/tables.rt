// A table asked, admitted to, stepped, left and shown. What is lent is the image that the table was loaded from.
ghost use Rattle.std.specs.Prelude.{Ok, ◌≡◌};
ghost use Rattle.table.specs.Ask.{ask_of};
ghost use Rattle.image.specs.Answers.{stored_in};
ghost use Rattle.calls.specs.Results.{granted_as};
ghost use Rattle.calls.specs.Tables.{changed, asked_as, admitted_in, stepped_as, stepped_in, left_as, left_in, ReadyFor, all_counts};

use crate::{Returned, slot_number};
use line::Kind;
use table::{Acted, Refusal, Request, Table};

// R86: the start and the new line's slot, or the refusal.
fn asked(t: Table, a: Result<u64, Refusal>) -> Returned
    ensures { result ≡ asked_as t a }
{
    match a {
        Ok(start) => Returned::granted(slot_number(t.lowest(Kind::Free)), start),
        Err(x) => Returned::from(x),
    }
}

// R86: asks a table, and changes nothing.
pub fn ask(t: Table, q: Request) -> Returned
    ensures { result ≡ asked_as t (ask_of t q) }
{
    asked(t, ask::ask(t, q))
}

// R17: the answer of an act; its table goes into the lent image where it is granted, and a refusal leaves the image as it is.
fn kept<A: Copy>(act: Acted<A>, out: &mut [u8]) -> Result<A, Refusal>
    ensures { (result ≡ act.answer) × (out.new ≡ changed act.answer (stored_in act.table out.old) out.old) }
{
    if act.answer.is_ok() {
        // R84: a buffer that is too short is left alone; the one that the table was loaded from is not.
        let _ = image::store(act.table, out);
    }
    act.answer
}

// R87: admits into the lent image, which a refusal leaves as it is.
pub fn admit(t: Table, q: Request, out: &mut [u8]) -> Returned
    ensures { (result ≡ asked_as t (ask_of t q)) × (out.new ≡ admitted_in t q out.old) }
{
    asked(t, kept(admit::admit(t, q), out))
}

// R88: steps into the lent image, which a refusal leaves as it is.
pub fn step(t: Table, out: &mut [u8]) -> Returned
    ensures { (result ≡ stepped_as t) × (out.new ≡ stepped_in t out.old) }
{
    Returned::at(0, kept(driver::driven(t), out).map(slot_number))
}

// R102: lets a line go in the lent image, which a refusal leaves as it is.
pub fn leave(t: Table, number: u64, out: &mut [u8]) -> Returned
    ensures { (result ≡ left_as t number) × (out.new ≡ left_in t number out.old) }
{
    Returned::at(0, kept(t.leave(number), out).map(u64::from))
}

// R89: the ready word of a table.
pub fn ready(t: Table) -> Returned
    ensures { ReadyFor (Ok t) result }
{
    Returned::granted(0, u64::from(board::ready_word(t)))
}

// R98: the clock of a table, and its eighteen counts into the lent numbers. The counts are taken out of the table first: where they
// were copied from it, the compiler copied the whole table, and a call took a third longer.
pub fn counts(t: Table, out: &mut [u64; 18]) -> Returned
    ensures { (result ≡ granted_as 0 t.clock) × (out.new ≡ all_counts t) }
{
    let had = t.had;
    crate::fill(out, &had, &[t.idle, t.departed]);
    Returned::granted(0, t.clock)
}
