// What each bench has had.
ghost use Rattle.std.specs.Prelude.{◌≡◌};
ghost use Rattle.image.specs.Loading.{load_of};
ghost use Rattle.calls.specs.Tables.{counts_for, counts_after};

use calls::Returned;

// R98: the counts of the image's table go into the lent numbers; a refusal leaves every one of them.
#[unsafe(no_mangle)]
pub extern "C" fn trimthuel_counts(table: &[u8], counts: &mut [u64; 18]) -> Returned
    ensures { (result ≡ counts_for (load_of table.now)) × (counts.new ≡ counts_after (load_of table.now) counts.old) }
{
    match image::try_load(table) {
        Ok(t) => calls::tables::counts(t, counts),
        Err(x) => Returned::from(x),
    }
}
