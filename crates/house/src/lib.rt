// The boundary for C and Rust: numbers and lent bytes only. Cards go over it whole, tables as their images: each call reads what it is lent, and hands
// on what it read to the work in `calls`.
#![tactic(auto)]

ghost use Rattle.std.specs.Prelude.{◌≡◌};
ghost use Rattle.board.specs.Board.{blinks};
ghost use Rattle.house.specs.Version.{boundary_version};

mod cards; // whole cards: their answer, written anew, run
mod counts; // what each bench has had
mod moves; // a table to a card and back
mod tables; // operations on images

// R90: a number that has more bits than a refusal's is no refusal's.
#[tactic(auto, unfolding(board::specs::Board::blinks))]
#[unsafe(no_mangle)]
pub extern "C" fn trimthuel_lamp(number: u64) -> u8
    ensures { result ≡ blinks number }
{
    u16::try_from(number).map_or(0, board::lamp)
}

// R93: the version of the boundary.
#[unsafe(no_mangle)]
pub extern "C" fn trimthuel_version() -> u32
    ensures { result ≡ boundary_version }
{
    6
}
