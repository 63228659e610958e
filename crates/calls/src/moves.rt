// A card's table and request, into lent bytes and numbers.
ghost use Rattle.std.specs.Prelude.{◌≡◌, length};
ghost use Rattle.image.specs.Answers.{store_of, stored_in};
ghost use Rattle.calls.specs.Results.{result_of};
ghost use Rattle.calls.specs.Moves.{numbers_if};

use crate::{Returned, written};
use table::{Request, Table};

// R92: the table and the request of a card, where the buffer has room for the image.
pub fn move_in(t: Table, q: Request, table: &mut [u8], numbers: &mut [u16; 18]) -> Returned
    ensures { (result ≡ result_of (store_of (length table.old))) × (table.new ≡ stored_in t table.old) × (numbers.new ≡ numbers_if q (store_of (length table.old)) numbers.old) }
{
    let stored = image::store(t, table);
    if stored.is_ok() {
        crate::fill(numbers, &q.stretched, &[q.need, q.period]);
    }
    written(0, stored)
}
