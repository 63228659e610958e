// Operations on images: each loads the image, and hands on its table; where that changes the table, its image is written back.
ghost use Rattle.std.specs.Prelude.{Ok, ◌≡◌, length};
ghost use Rattle.table.specs.Words.{empty_table};
ghost use Rattle.image.specs.Loading.{load_of};
ghost use Rattle.image.specs.Answers.{store_of, stored_in};
ghost use Rattle.calls.specs.Results.{result_of};
ghost use Rattle.calls.specs.Tables.{request_of, ask_for, after_admit, step_for, after_step, leave_for, after_leave, ReadyFor};

use calls::Returned;
use table::{Request, Table};

// R85: the empty table's image goes into the lent buffer, or the buffer is too short and every byte stays.
#[unsafe(no_mangle)]
pub extern "C" fn trimthuel_empty(table: &mut [u8]) -> Returned
    ensures { (result ≡ result_of (store_of (length table.old))) × (table.new ≡ stored_in empty_table table.old) }
{
    calls::written(0, image::store(Table::empty(), table))
}

// R86: asks, and changes nothing.
#[unsafe(no_mangle)]
pub extern "C" fn trimthuel_ask(
    table: &[u8],
    need: u16,
    period: u16,
    stretched: &[u16; 16],
) -> Returned
    ensures { result ≡ ask_for (load_of table.now) (request_of need period stretched.now) }
{
    match image::try_load(table) {
        Ok(t) => calls::tables::ask(t, Request::new(*stretched, need, period)),
        Err(x) => Returned::from(x),
    }
}

// R87: admits; a refusal leaves every byte of the image.
#[unsafe(no_mangle)]
pub extern "C" fn trimthuel_admit(
    table: &mut [u8],
    need: u16,
    period: u16,
    stretched: &[u16; 16],
) -> Returned
    ensures { (result ≡ ask_for (load_of table.old) (request_of need period stretched.now)) × (table.new ≡ after_admit (load_of table.old) (request_of need period stretched.now) table.old) }
{
    match image::try_load(table) {
        Ok(t) => { calls::tables::admit(t, Request::new(*stretched, need, period), table) }
        Err(x) => Returned::from(x),
    }
}

// R88: one reading, one step, one writing; a refusal leaves every byte of the image.
#[unsafe(no_mangle)]
pub extern "C" fn trimthuel_step(table: &mut [u8]) -> Returned
    ensures { (result ≡ step_for (load_of table.old)) × (table.new ≡ after_step (load_of table.old) table.old) }
{
    match image::try_load(table) {
        Ok(t) => calls::tables::step(t, table),
        Err(x) => Returned::from(x),
    }
}

// R102: lets the line of the slot named go; a refusal leaves every byte of the image.
#[unsafe(no_mangle)]
pub extern "C" fn trimthuel_leave(table: &mut [u8], number: u64) -> Returned
    ensures { (result ≡ leave_for (load_of table.old) number) × (table.new ≡ after_leave (load_of table.old) number table.old) }
{
    match image::try_load(table) {
        Ok(t) => calls::tables::leave(t, number, table),
        Err(x) => Returned::from(x),
    }
}

// R89: the ready word of the image's table.
#[unsafe(no_mangle)]
pub extern "C" fn trimthuel_ready(table: &[u8]) -> Returned
    ensures { ReadyFor (load_of table.now) result }
{
    match image::try_load(table) {
        Ok(t) => calls::tables::ready(t),
        Err(x) => Returned::from(x),
    }
}
