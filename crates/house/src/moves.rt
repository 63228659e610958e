// A table to a card, and a card to a table.
ghost use Rattle.std.specs.Prelude.{Ok, ◌≡◌, length};
ghost use Rattle.card.specs.Reading.{read_of};
ghost use Rattle.image.specs.Loading.{load_of};
ghost use Rattle.calls.specs.Results.{result_of};
ghost use Rattle.calls.specs.Tables.{request_of};
ghost use Rattle.calls.specs.Moves.{write_card_for, card_after, read_card_for, image_after, numbers_after};

use calls::Returned;
use card::Card;
use table::Request;

// R91: the image is read and the card of its table and a request written; a refusal leaves every byte of the lent buffer.
#[unsafe(no_mangle)]
pub extern "C" fn trimthuel_write_card(
    table: &[u8],
    need: u16,
    period: u16,
    stretched: &[u16; 16],
    card: &mut [u8],
) -> Returned
    ensures { (result ≡ result_of (write_card_for (load_of table.now) (request_of need period stretched.now) (length card.old))) × (card.new ≡ card_after (load_of table.now) (request_of need period stretched.now) card.old) }
{
    match &image::try_load(table) {
        Ok(t) => {
            let request = Request::new(*stretched, need, period);
            calls::written(0, writer::write(&Card { table: *t, request }, card))
        }
        Err(x) => Returned::from(*x),
    }
}

// R92: the card is read and its table's image and its request's numbers written; a refusal leaves every lent byte.
#[unsafe(no_mangle)]
pub extern "C" fn trimthuel_read_card(
    card: &[u8],
    table: &mut [u8],
    numbers: &mut [u16; 18],
) -> Returned
    ensures { (result ≡ result_of (read_card_for (read_of card.now) (length table.old))) × (table.new ≡ image_after (read_of card.now) table.old) × (numbers.new ≡ numbers_after (read_of card.now) (length table.old) numbers.old) }
{
    match reader::try_read(card) {
        Ok(read) => calls::moves::move_in(read.card.table, read.card.request, table, numbers),
        Err(x) => Returned::from(x),
    }
}
