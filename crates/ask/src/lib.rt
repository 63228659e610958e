// Ask (R41): the answer to a request.
#![tactic(auto)]

mod answer; // the grounds in their order, or the start
mod gather; // the lines, counted from the clock

ghost use Rattle.ask.specs.Asked.{Asked, Within};

// R41: the refusal or the start, and nothing else
pub fn ask(t: table::Table, q: table::Request) -> Result<u64, table::Refusal>
    ensures { Asked t q result × Within t.clock result }
{
    answer::answer(t, q)
}
