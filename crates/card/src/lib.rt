// The words of the card: its layout, what stands in it, what a slot's record means, and what its reader and its writer answer.
#![tactic(auto)]

ghost use Rattle.std.specs.Prelude.{Option, ◌≡◌, ◌≤◌};
ghost use Rattle.line.specs.declared.Held.TheVariants.{Running};
ghost use Rattle.line.specs.Slots.{run_then, holding};
ghost use Rattle.card.specs.Layout.{is_free, is_turned, line_length, record_length};
ghost use Rattle.card.specs.Marked.{record_with, free, slot_for, line_record, record_for};

use line::{Follows, Held, Run, Slot};
use table::{Refusal, Request, Table};

pub mod layout;

// R53: the marks of a slot's record.
#[derive(Clone, Copy)]
pub enum Mark {
    TA,
    TB,
    TF,
    TL,
}

// R53: a slot's record: its mark and its five numbers as they stand. The mark says what the two last of them are and what follows the period; under TF all are 0.
#[derive(Clone, Copy)]
pub struct SlotRecord {
    pub mark: Mark,
    pub need: u16,
    pub period: u16,
    pub stretched: u16,
    pub fourth: u16,
    pub fifth: u16,
}

// R53: what stands where a slot's record or RQ may stand.
#[derive(Clone, Copy)]
pub enum Record {
    Slot(SlotRecord),
    Last { need: u16, period: u16 },
}

// R53: the table and the request that a card carries.
#[derive(Clone, Copy)]
pub struct Card {
    pub table: Table,
    pub request: Request,
}

// R56: a card that was read.
#[derive(Clone, Copy)]
pub struct Reading {
    pub card: Card,
    // R58: a bit for each slot whose record was TA, slot 0 lowest.
    pub turned: u16,
}

// R56: what the reader hands out. The card stands beside the answer, since a refusal hands one out too (the theorem `refusal_keeps`).
#[derive(Clone, Copy)]
pub struct ReadCard {
    pub card: Card,
    // R58: as in a reading.
    pub turned: u16,
    pub answer: Result<(), Refusal>,
}

impl From<Result<Reading, Refusal>> for ReadCard {
    ghost use Rattle.std.specs.Prelude.{◌≡◌};
    ghost use Rattle.card.specs.Answers.{handed_out};

    ghost from_gives = { λ said c. c ≡ handed_out said };

    // R56: with a refusal the empty table, a request of zeros and no slot are handed out.
    fn from(said: Result<Reading, Refusal>) -> ReadCard {
        match said {
            Ok(Reading { card, turned }) => ReadCard {
                card,
                turned,
                answer: Ok(()),
            },
            Err(x) => ReadCard {
                card: Card {
                    table: Table::empty(),
                    request: Request::new([0; 16], 0, 0),
                },
                turned: 0,
                answer: Err(x),
            },
        }
    }
}

impl From<Follows> for Mark {
    ghost use Rattle.std.specs.Prelude.{◌≡◌};
    ghost use Rattle.card.specs.Layout.{line_mark};

    ghost from_gives = { λ follows m. m ≡ line_mark follows };

    // R53, R99: the mark that a line is written under.
    fn from(follows: Follows) -> Mark {
        match follows {
            Follows::Renews => Mark::TB,
            Follows::Leaves => Mark::TL,
        }
    }
}

impl SlotRecord {
    // R53: a record of this mark and these numbers.
    pub fn new(
        mark: Mark,
        need: u16,
        period: u16,
        stretched: u16,
        fourth: u16,
        fifth: u16,
    ) -> SlotRecord
        ensures { result ≡ record_with mark need period stretched fourth fifth }
    {
        SlotRecord {
            mark,
            need,
            period,
            stretched,
            fourth,
            fifth,
        }
    }

    // R53, R55: TF, and the record of a slot that has none on the card.
    pub fn free() -> SlotRecord
        ensures { result ≡ free }
    {
        SlotRecord::new(Mark::TF, 0, 0, 0, 0, 0)
    }

    // R53: its mark stands alone.
    pub fn is_free(self) -> bool
        ensures { result ≡ is_free self.mark }
    {
        matches!(self.mark, Mark::TF)
    }

    // R58: its two last numbers are remaining and then age.
    pub fn is_turned(self) -> bool
        ensures { result ≡ is_turned self.mark }
    {
        matches!(self.mark, Mark::TA)
    }

    // R53: how many bytes it has.
    pub fn length(self) -> usize
        ensures { (result ≡ record_length self.mark) × (result ≤ line_length) }
    {
        if self.is_free() {
            layout::MARK_LENGTH
        } else {
            layout::LINE_LENGTH
        }
    }

    // R53, R99: a slot with its line, of this age and these remaining ticks.
    fn with_line(self, age: u16, remaining: u16, follows: Follows) -> Slot
        ensures { result ≡ holding (Running (run_then follows self.need self.period age remaining)) }
    {
        Slot::holding(Held::running(self.need, self.period, age, remaining, follows))
    }

    // R53, R58: the slot that it stands for.
    pub fn slot(self) -> Slot
        ensures { result ≡ slot_for self }
    {
        match self.mark {
            Mark::TA => self.with_line(self.fifth, self.fourth, Follows::Renews),
            Mark::TB => self.with_line(self.fourth, self.fifth, Follows::Renews),
            Mark::TF => Slot::empty(),
            Mark::TL => self.with_line(self.fourth, self.fifth, Follows::Leaves),
        }
    }

    // R53: the record of a running line and its T'.
    fn line(x: Run, stretched: u16) -> SlotRecord
        ensures { result ≡ line_record x stretched }
    {
        SlotRecord::new(
            x.follows.into(),
            x.need,
            x.period,
            stretched,
            x.age,
            x.remaining,
        )
    }

    // R23, R53: the record of a slot and its entry of the request. A waiting line has none.
    pub fn of(slot: Slot, stretched: u16) -> Option<SlotRecord>
        ensures { result ≡ record_for slot.held stretched }
    {
        match slot.held {
            Held::Nothing => Some(SlotRecord::free()),
            Held::Running(x) => Some(SlotRecord::line(x, stretched)),
            Held::Waiting(_) => None,
        }
    }
}
