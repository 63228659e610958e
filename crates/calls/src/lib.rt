// What a call over the boundary returns, R63, and the work of each call on a table or a card that has been read: what it answers, and what it leaves
// in what is lent. `house` exports the calls.
#![tactic(auto)]

ghost use Rattle.std.specs.Prelude.{Option, ◌≡◌, ◌+◌, ◌++◌, length};
ghost use Rattle.table.specs.Words.{slot_number};
ghost use Rattle.calls.specs.Results.{granted_as, result_at};

use table::Refusal;

pub mod cards; // a card's answer and its line, and the run of its table
pub mod moves; // a card's table and request, into lent bytes and numbers
pub mod tables; // a table asked, admitted to and stepped

// R63: what a call returns, to C as to Rust, and so as numbers. Number 0: what was asked for is granted, and is the value. R103: refusal 10 has a tick and an excess, all else 0 for both.
#[repr(C)]
#[derive(Clone, Copy)]
pub struct Returned {
    pub number: u64,
    pub place: u64,
    pub value: u64,
    pub tick: u64,
    pub excess: u64,
}

impl Returned {
    // R63: what was asked for.
    pub fn granted(place: u64, value: u64) -> Returned
        ensures { result ≡ granted_as place value }
    {
        Returned {
            number: 0,
            place,
            value,
            tick: 0,
            excess: 0,
        }
    }

    // R63: what was asked for, with the place that a grant has, or the refusal.
    pub fn at(place: u64, said: Result<u64, Refusal>) -> Returned
        ensures { result ≡ result_at place said }
    {
        match said {
            Ok(value) => Returned::granted(place, value),
            Err(x) => Returned::from(x),
        }
    }
}

// R63: a refusal.
impl From<Refusal> for Returned {
    ghost use Rattle.std.specs.Prelude.{◌≡◌};
    ghost use Rattle.calls.specs.Results.{refused_as};

    ghost from_gives = { λ x r. r ≡ refused_as x };

    fn from(x: Refusal) -> Returned {
        Returned {
            number: u64::from(x.number),
            place: x.place,
            value: 0,
            tick: x.tick,
            excess: u64::from(x.excess),
        }
    }
}

// R63: a slot is its number, and none is 255: C has no Option.
fn slot_number(slot: Option<usize>) -> u64
    ensures { result ≡ slot_number slot }
{
    match slot {
        Some(k) => k as u64,
        None => 255,
    }
}

// R59, R62, R84: the length that was written, with the place that a grant has, or the refusal.
pub fn written(place: u64, said: Result<usize, Refusal>) -> Returned
    ensures { result ≡ result_at place said }
{
    Returned::at(place, said.map(|n| n as u64))
}

// R92, R98: numbers, one for each slot, and those that follow them.
fn fill<T: Copy>(out: &mut [T], slots: &[T], rest: &[T])
    requires { length out.old ≡ length slots.now + length rest.now }
    ensures { out.new ≡ slots.now ++ rest.now }
{
    let n = slots.len();
    out[..n].copy_from_slice(slots);
    out[n..].copy_from_slice(rest);
}
