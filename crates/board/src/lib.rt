// What the board shows: the ready word, R49, and the front lamp, R50.
#![tactic(auto)]

ghost use Rattle.std.specs.Prelude.{◌≡◌};
ghost use Rattle.board.specs.Board.{blinks, ReadyWord};

// R49: a bit for each slot that is owed, slot 0 lowest.
pub fn ready_word(t: table::Table) -> u16
    ensures { ReadyWord t.slots result }
{
    let mut w = 0;
    for (i, s) in t.slots.iter().enumerate() {
        if s.owed() {
            w |= 1 << i;
        }
    }
    w
}

// R50: the blinks for a refusal's number. It is no enum: the contract has an answer for every number of sixteen bits (`blinks`).
#[tactic(auto, unfolding(crate::specs::Board::blinks))]
pub fn lamp(number: u16) -> u8
    ensures { result ≡ blinks number }
{
    match number {
        1..=3 => 1,
        4..=6 => 2,
        7..=10 => 3,
        11..=13 => 4,
        14..=15 => 5,
        _ => 0,
    }
}
