// The card reader: any bytes of any length in, a table and a request or a refusal out.
#![tactic(auto)]

ghost use Rattle.std.specs.Prelude.{MatchResult, ◌≡◌, ◌+◌, ◌-◌, ◌≤◌, ◌<◌, length, drop, false};
ghost use Rattle.table.specs.Words.{refusal};
ghost use Rattle.card.specs.Bytes.{value, marked};
ghost use Rattle.card.specs.Layout.{clock_at, clock_length, last_length};
ghost use Rattle.card.specs.Reading.{line_record_of, last_of, slot_record_of, record_of, closing, records_of, read_of};
ghost use Rattle.card.specs.Twin.{turned_of};
ghost use Rattle.card.specs.Answers.{reading_with, reading_of, handed};

use card::{Card, Mark, ReadCard, Reading, Record, SlotRecord, layout};
use line::Slot;
use table::{Refusal, Request, Table, ground};

// R52: the lower byte comes first.
fn get16(s: &[u8], at: usize) -> u16
    requires { at + 1 < length s.now }
    ensures { result ≡ value 2 s.now at }
{
    u16::from_le_bytes([s[at], s[at + 1]])
}

// R53: CK, and the clock after it.
fn clock(s: &[u8]) -> u64
    requires { clock_length ≤ length s.now }
    ensures { result ≡ value 8 s.now clock_at }
{
    let mut bytes = [0; 8];
    bytes.copy_from_slice(&s[layout::CLOCK_AT..layout::CLOCK_LENGTH]);
    u64::from_le_bytes(bytes)
}

// R52: the two bytes of a mark.
#[tactic(auto, using(card::proofs::Marks::starts_marked))]
fn opens(s: &[u8], mark: &[u8; 2]) -> bool
    ensures { result ≡ marked mark.now s.now }
{
    s.starts_with(mark)
}

// R53, R57: a slot's record with the numbers of a line, under its mark.
fn line(s: &[u8], mark: Mark) -> Option<Record>
    ensures { result ≡ line_record_of mark s.now }
{
    if s.len() < layout::LINE_LENGTH {
        return None;
    }
    let need = get16(s, layout::NEED_AT);
    let period = get16(s, layout::PERIOD_AT);
    let stretched = get16(s, layout::STRETCHED_AT);
    let fourth = get16(s, layout::FOURTH_AT);
    let fifth = get16(s, layout::FIFTH_AT);
    Some(Record::Slot(SlotRecord::new(mark, need, period, stretched, fourth, fifth)))
}

// R53, R57: RQ, and what follows it.
fn last(s: &[u8]) -> Option<Record>
    ensures { result ≡ last_of s.now }
{
    if s.len() < layout::LAST_LENGTH {
        return None;
    }
    Some(Record::Last {
        need: get16(s, layout::NEED_AT),
        period: get16(s, layout::PERIOD_AT),
    })
}

// R57, R58: a slot's record at the front of `s`.
fn slot_record(s: &[u8]) -> Option<Record>
    ensures { result ≡ slot_record_of s.now }
{
    if opens(s, &layout::TB) {
        line(s, Mark::TB)
    } else if opens(s, &layout::TL) {
        line(s, Mark::TL)
    } else if opens(s, &layout::TF) {
        Some(Record::Slot(SlotRecord::free()))
    } else if opens(s, &layout::TA) {
        line(s, Mark::TA)
    } else {
        None
    }
}

// R57: the record at the front of `s`, where `left` slots have none yet.
#[tactic(auto, unfolding(card::specs::Reading::record_of))]
fn front(s: &[u8], left: usize) -> Option<Record>
    ensures { result ≡ record_of left s.now }
{
    if opens(s, &layout::RQ) {
        last(s)
    } else if left == 0 {
        None
    } else {
        slot_record(s)
    }
}

// R31, R57: refused as broken, at a byte offset.
fn broken(at: usize) -> Refusal
    ensures { result ≡ refusal 11 at }
{
    Refusal::new(ground::BROKEN, at as u64)
}

// R57: the record at an offset, where `left` slots have none yet.
fn record_at(bytes: &[u8], at: usize, left: usize) -> Result<Record, Refusal>
    requires { at ≤ length bytes.now }
    ensures { let seen = record_of left (drop at bytes.now) in MatchResult result (λ r. seen ≡ Some r) (λ x. (seen ≡ None) × (x ≡ refusal 11 at)) }
{
    front(&bytes[at..], left).ok_or(broken(at))
}

// R57: RQ at `at`, on a card of `len` bytes: no TF stands before it, and no byte after it.
fn close(len: usize, at: usize, gap: bool) -> Result<(), Refusal>
    requires { at + last_length ≤ len }
    ensures { result ≡ closing gap at (len - at) tt }
{
    if gap {
        return Err(broken(at));
    }
    let end = at + layout::LAST_LENGTH;
    if len != end {
        return Err(broken(end));
    }
    Ok(())
}

// R53, R54, R55: the records after the clock's, each made a slot and its entry at once; a slot without one is as one marked TF.
// What the loop carries stands in variables of its own: in a struct with a method, reading a card took 3 to 8 % longer. Behind sixteen records RQ alone
// is read, so that the loop ends by what it reads.
fn records(bytes: &[u8]) -> Result<Reading, Refusal>
    requires { clock_length ≤ length bytes.now }
    ensures { result ≡ reading_of (records_of (value 8 bytes.now clock_at) 16 false clock_length (drop clock_length bytes.now)) }
{
    let mut table = Table::new(clock(bytes), [Slot::empty(); 16]);
    let mut request = Request::new([0; 16], 0, 0);
    let mut turned = 0;
    let mut at = layout::CLOCK_LENGTH;
    let mut gap = false;
    for i in 0..=16 {
        match record_at(bytes, at, 16 - i)? {
            Record::Slot(r) => {
                gap = r.is_free();
                at += r.length();
                turned |= u16::from(r.is_turned()) << i;
                request.stretched[i] = r.stretched;
                table.slots[i] = r.slot();
            }
            Record::Last { need, period } => {
                close(bytes.len(), at, gap)?;
                request.need = need;
                request.period = period;
                return Ok(Reading {
                    card: Card { table, request },
                    turned,
                });
            }
        }
    }
    // Where no slot is left a record is RQ.
    unreachable!()
}

// R31, R56, R57: any bytes of any length: the card and the slots that were TA, or the refusal.
pub fn try_read(bytes: &[u8]) -> Result<Reading, Refusal>
    ensures { result ≡ reading_with (turned_of bytes.now) (read_of bytes.now) }
{
    if bytes.len() < layout::CLOCK_LENGTH || !opens(bytes, &layout::CK) {
        return Err(broken(0));
    }
    records(bytes)
}

// R31, R56, R57: any bytes of any length. The contract is an equation: it settles all that is handed out.
pub fn read(card: &[u8]) -> ReadCard
    ensures { result ≡ handed (turned_of card.now) (read_of card.now) }
{
    try_read(card).into()
}
