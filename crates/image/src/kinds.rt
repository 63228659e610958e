// The kinds of a slot, as its first byte. They are bytes and no enum, for speed: with an enum's `TryFrom<u8>` an image took a tenth longer to load.
ghost use Rattle.std.specs.Prelude.{◌≡◌};
ghost use Rattle.image.specs.Image.{run_kind};

use line::Follows;

// R81: a slot that holds nothing.
pub(crate) const NOTHING: u8 = 0;

// R81: one that holds a running line; R99: the next period follows this one.
pub(crate) const RUNNING: u8 = 1;

// R81: one that holds a waiting line.
pub(crate) const WAITING: u8 = 2;

// R81, R99: one that holds a running line which leaves.
pub(crate) const LEAVING: u8 = 3;

// R81: the kind of a running line.
pub(crate) fn run_kind(follows: Follows) -> u8
    ensures { result ≡ run_kind follows }
{
    match follows {
        Follows::Renews => RUNNING,
        Follows::Leaves => LEAVING,
    }
}
