// The line that the answering program prints.
#![tactic(auto)]

ghost use Rattle.std.specs.Prelude.{◌≡◌, ◌+◌, ◌≤◌, length};
ghost use Rattle.reply.specs.Line.{carries, lateness_of, answer_line, laid, Grown, Replied, length_for, held_after};

mod array; // a line in an array
mod text; // a line that grows in a lent buffer

pub use array::Reply;
use table::Refusal;
use text::{Line, places};

// R61: the line for an answer.
pub fn reply_to(a: Result<u64, Refusal>) -> Reply
    ensures { Replied (answer_line a) result }
{
    let len = line_len(a);
    let mut bytes = [0; 72];
    put_line(&mut bytes, a);
    Reply { bytes, len }
}

// R33, R62: puts the line for an answer at the start of a lent buffer and answers its length. A buffer that is too short keeps every byte.
pub fn put_reply(a: Result<u64, Refusal>, out: &mut [u8]) -> Option<usize>
    ensures length_said { result ≡ length_for (answer_line a) out.old }
    ensures buffer_after { out.new ≡ held_after (answer_line a) out.old }
{
    let len = line_len(a);
    if out.len() < len {
        return None;
    }
    put_line(out, a);
    Some(len)
}

// R61: the length of an answer's line.
#[tactic(auto, using(crate::proofs::Line::lengths))]
fn line_len(a: Result<u64, Refusal>) -> usize
    ensures { (result ≡ length (answer_line a)) × (result ≤ 72) }
{
    match a {
        Ok(start) => 9 + places(start),
        Err(x) => 10 + places(u64::from(x.number)) + places(x.place) + lateness_len(x),
    }
}

// R103: a refusal says a tick and an excess where they are not both 0.
fn carries(x: Refusal) -> bool
    ensures { result ≡ carries x }
{
    x.excess > 0 || x.tick > 0
}

// R61, R103: how many bytes a refusal's tick and excess take.
#[tactic(auto, using(crate::proofs::Line::lengths))]
fn lateness_len(x: Refusal) -> usize
    ensures { (result ≡ length (lateness_of x)) × (result ≤ 32) }
{
    if carries(x) {
        2 + places(x.tick) + places(u64::from(x.excess))
    } else {
        0
    }
}

// R61: puts the line for an answer at the start of out.
#[tactic(auto, using(crate::proofs::Line::lengths))]
fn put_line(out: &mut [u8], a: Result<u64, Refusal>)
    requires { length (answer_line a) ≤ length out.old }
    ensures { out.new ≡ laid (answer_line a) out.old }
{
    let mut line = Line { out, at: 0 };
    match a {
        Ok(start) => {
            line.text(b"release ");
            line.number(start);
        }
        Err(x) => {
            line.text(b"refused ");
            line.number(u64::from(x.number));
            line.text(b" ");
            line.number(x.place);
            put_lateness(&mut line, x);
        }
    }
    line.text(b"\n");
}

// R61, R103: puts the tick and the excess of a refusal, each behind a space, where it says them.
#[tactic(auto, using(crate::proofs::Line::lengths))]
fn put_lateness(line: &mut Line, x: Refusal)
    requires { line.old.at + length (lateness_of x) ≤ length line.old.out.now }
    ensures { Grown (lateness_of x) line.old line.new }
{
    if carries(x) {
        line.text(b" ");
        line.number(x.tick);
        line.text(b" ");
        line.number(u64::from(x.excess));
    }
}
