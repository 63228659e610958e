// The table as bytes: any bytes of any length loaded as a table or refused, and a table stored.
#![tactic(auto)]

ghost use Rattle.std.specs.Prelude.{None, Err, MatchResult, ◌≡◌, ◌≤◌, ◌++◌, length, drop};
ghost use Rattle.image.specs.Image.{image_of};
ghost use Rattle.image.specs.Loading.{wrong_in, table_in, load_of};
ghost use Rattle.image.specs.Answers.{handed_out, store_of, stored_in};

use numbers::{eight_at, put_eight};
use pieces::{pieces_in, put_pieces};
use table::{Refusal, Table, ground};

mod fields; // the numbers in a slot's bytes
mod judge; // which byte is wrong
mod kinds; // the kinds of a slot
mod numbers; // numbers of eight bytes
mod pieces; // the slots and the counts in an image

// R81: the version of the layout.
const VERSION: u8 = 4;

// R81: where an image's slots begin, and behind them the counts of the slots, the idle one, the departed one and the last slot; and how long it is.
const SLOTS: usize = 9;

const COUNTS: usize = SLOTS + 9 * 16;

const IDLE: usize = COUNTS + 8 * 16;

const DEPARTED: usize = IDLE + 8;

const LAST: usize = DEPARTED + 8;

const SIZE: usize = LAST + 1;

// R84: what loading hands out. The table stands beside the answer, since a refusal hands one out too, the empty one (the theorem `refusal_keeps`).
#[derive(Clone, Copy)]
pub struct Loaded {
    pub table: Table,
    pub answer: Result<(), Refusal>,
}

impl From<Result<Table, Refusal>> for Loaded {
    // R83, R84: nothing of the image is handed out beside a refusal.
    fn from(read: Result<Table, Refusal>) -> Loaded
        ensures { result ≡ handed_out read }
    {
        match read {
            Ok(table) => Loaded {
                table,
                answer: Ok(()),
            },
            Err(x) => Loaded {
                table: Table::empty(),
                answer: Err(x),
            },
        }
    }
}

// R31, R83: whether the bytes are an image, or what they are refused for.
fn judged(image: &[u8]) -> Result<(), Refusal>
    ensures { MatchResult result (λ _. wrong_in 16 image.now ≡ None) (λ x. Err x ≡ load_of image.now) }
{
    match judge::wrong_in(image) {
        Some(at) => Err(Refusal::new(ground::BROKEN, at as u64)),
        None => Ok(()),
    }
}

// R81: the table in an image that is long enough.
fn table_in(image: &[u8]) -> Table
    requires { 298 ≤ length image.now }
    ensures { result ≡ table_in 16 image.now }
{
    Table {
        had: pieces_in(&image[COUNTS..]),
        idle: eight_at(image, IDLE),
        departed: eight_at(image, DEPARTED),
        last: image[LAST],
        ..Table::new(eight_at(image, 1), pieces_in(&image[SLOTS..]))
    }
}

// R31, R83: any bytes of any length. The contract is an equation: it settles all that is answered.
pub fn try_load(image: &[u8]) -> Result<Table, Refusal>
    ensures { result ≡ load_of image.now }
{
    judged(image)?;
    Ok(table_in(image))
}

// R31, R83, R84: the same, as it is handed out.
pub fn load(image: &[u8]) -> Loaded
    ensures { result ≡ handed_out (load_of image.now) }
{
    Loaded::from(try_load(image))
}

// R81: the version and the clock, then the slots, then the counts, then the last slot.
fn put_image(t: Table, out: &mut [u8])
    requires { 298 ≤ length out.old }
    ensures { out.new ≡ image_of t ++ drop 298 out.old }
{
    fields::put_nine(out, VERSION, t.clock);
    put_pieces(&mut out[SLOTS..], t.slots);
    put_pieces(&mut out[COUNTS..], t.had);
    put_eight(&mut out[IDLE..], t.idle);
    put_eight(&mut out[DEPARTED..], t.departed);
    out[LAST] = t.last;
}

// R33, R84: a buffer that is too short is left alone. The contract settles the answer and the whole buffer: both parts are equations.
pub fn store(t: Table, out: &mut [u8]) -> Result<usize, Refusal>
    ensures { (result ≡ store_of (length out.old)) × (out.new ≡ stored_in t out.old) }
{
    if out.len() < SIZE {
        return Err(Refusal::new(ground::NO_ROOM, 0));
    }
    put_image(t, out);
    Ok(SIZE)
}
