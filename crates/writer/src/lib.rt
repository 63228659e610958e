// The card writer: each record goes into the buffer behind the last one.
#![tactic(auto)]

ghost use Rattle.std.specs.Prelude.{◌≡◌, ◌++◌, ◌+◌, ◌≤◌, length};
ghost use Rattle.card.specs.Bytes.{le};
ghost use Rattle.card.specs.Layout.{clock_length, line_length, last_length, record_length};
ghost use Rattle.card.specs.Marked.{numbers_of, record_bytes};
ghost use Rattle.card.specs.Card.{clock_record, request_record, slot_records};
ghost use Rattle.card.specs.Answers.{write_of, buffer_of};
ghost use Rattle.writer.specs.Laid.{Laid};
ghost use Rattle.writer.specs.Measured.{MeasuredRecords};

use card::{Card, Mark, SlotRecord, layout};
use table::{Refusal, Request, ground};

// R55: how many slots have a record on the card, and how long these records are.
#[derive(Clone, Copy)]
struct Used {
    slots: usize,
    length: usize,
}

// R59: puts bytes from `at` on, and answers where the next byte goes, as the functions below do. The two are no struct: the contracts would speak of a
// reference within one, and each call has the place from the one before it as it is.
fn put(out: &mut [u8], at: usize, bytes: &[u8]) -> usize
    requires { at + length bytes.now ≤ length out.old }
    ensures { Laid out.old out.new at result bytes.now }
{
    let end = at + bytes.len();
    out[at..end].copy_from_slice(bytes);
    end
}

// R52: the lower byte comes first.
fn put16(out: &mut [u8], at: usize, v: u16) -> usize
    requires { at + 2 ≤ length out.old }
    ensures { Laid out.old out.new at result (le 2 v) }
{
    put(out, at, &v.to_le_bytes())
}

// R53: CK and the clock.
fn put_clock(out: &mut [u8], at: usize, clock: u64) -> usize
    requires { at + clock_length ≤ length out.old }
    ensures { Laid out.old out.new at result (clock_record clock) }
{
    let at = put(out, at, &layout::CK);
    put(out, at, &clock.to_le_bytes())
}

// R53: a mark and the five numbers of a line's record.
fn put_line(out: &mut [u8], at: usize, mark: &[u8; 2], r: SlotRecord) -> usize
    requires { at + line_length ≤ length out.old }
    ensures { Laid out.old out.new at result (mark.now ++ numbers_of r) }
{
    let at = put(out, at, mark);
    let at = put16(out, at, r.need);
    let at = put16(out, at, r.period);
    let at = put16(out, at, r.stretched);
    let at = put16(out, at, r.fourth);
    put16(out, at, r.fifth)
}

// R53: a slot's record, by its mark.
fn put_record(out: &mut [u8], at: usize, r: SlotRecord) -> usize
    requires { at + record_length r.mark ≤ length out.old }
    ensures { Laid out.old out.new at result (record_bytes r) }
{
    match r.mark {
        Mark::TA => put_line(out, at, &layout::TA, r),
        Mark::TB => put_line(out, at, &layout::TB, r),
        Mark::TF => put(out, at, &layout::TF),
        Mark::TL => put_line(out, at, &layout::TL, r),
    }
}

// R54: the records of the first `n` slots, slot 0 first.
fn put_records(out: &mut [u8], mut at: usize, card: &Card, n: usize) -> usize
    requires { (n ≤ 16) × (n ≤ length card.now.table.slots) × (at + length (slot_records n card.now.table.slots card.now.request.stretched) ≤ length out.old) }
    ensures { Laid out.old out.new at result (slot_records n card.now.table.slots card.now.request.stretched) }
{
    for i in 0..n {
        if let Some(r) = SlotRecord::of(card.table.slots[i], card.request.stretched[i]) {
            at = put_record(out, at, r);
        }
    }
    at
}

// R53: RQ and the new line's two numbers.
fn put_request(out: &mut [u8], at: usize, request: Request) -> usize
    requires { at + last_length ≤ length out.old }
    ensures { Laid out.old out.new at result (request_record request.need request.period) }
{
    let at = put(out, at, &layout::RQ);
    let at = put16(out, at, request.need);
    put16(out, at, request.period)
}

// R23, R53, R55: one loop for all of it. The records so far have `all` bytes; what is used goes up to the last that holds something.
fn measure(card: &Card) -> Result<Used, Refusal>
    ensures { MeasuredRecords card.now.table.slots card.now.request.stretched result }
{
    let mut all = 0;
    let mut used = Used {
        slots: 0,
        length: 0,
    };
    for (i, slot) in card.table.slots.iter().enumerate() {
        let Some(r) = SlotRecord::of(*slot, card.request.stretched[i]) else {
            return Err(Refusal::new(ground::WAITING, i as u64));
        };
        all += r.length();
        if !r.is_free() {
            used = Used {
                slots: i + 1,
                length: all,
            };
        }
    }
    Ok(used)
}

// R23, R33, R59: a waiting line is looked for before the room is, and the length is known before a byte is written, so that a refusal leaves the buffer alone.
// The contract settles the answer and the whole buffer: both parts are equations.
pub fn write(card: &Card, out: &mut [u8]) -> Result<usize, Refusal>
    ensures { (result ≡ write_of card.now.table card.now.request (length out.old)) × (out.new ≡ buffer_of card.now.table card.now.request out.old) }
{
    let used = measure(card)?;
    if out.len() < layout::CLOCK_LENGTH + used.length + layout::LAST_LENGTH {
        return Err(Refusal::new(ground::NO_ROOM, 0));
    }
    let at = put_clock(out, 0, card.table.clock);
    let at = put_records(out, at, card, used.slots);
    Ok(put_request(out, at, card.request))
}
