// The answer to a request: the grounds R21 to R26 in their order (R18), and then what is decided of the lines gathered.
ghost use Rattle.std.specs.Prelude.{◌≡◌, ◌-◌, ◌^◌, ◌≤◌};
ghost use Rattle.table.specs.Ask.{ask_of};
ghost use Rattle.decide.specs.Decided.{said, decided};
ghost use Rattle.ask.specs.Asked.{Within};
ghost use Rattle.ask.specs.Gathered.{gathered_lines, Room, answer_from, unless_found};

use crate::gather::Gathered;
use decide::NoStart;
use line::Kind;
use table::{Refusal, Request, Table, ground};

// R7, R21: the last clock that may ask, 2^48 − 65,536
const LATEST: u64 = 281_474_976_645_120;

// R17, R18: one test, and the refusal of this number at the slot found, if one was
fn none_found(slot: Option<usize>, number: u16) -> Result<(), Refusal>
    ensures { result ≡ unless_found slot number }
{
    match slot {
        Some(k) => Err(Refusal::new(number, k as u64)),
        None => Ok(()),
    }
}

// R17, R41, R103: what was decided, as an answer: a start and a short tick are counted from the clock on, and these grounds have place 0
fn answered(clock: u64, decided: Result<u32, NoStart>) -> Result<u64, Refusal>
    requires { clock ≤ 2 ^ 48 - 65536 }
    ensures { result ≡ answer_from clock (said decided) }
{
    match decided {
        Ok(after) => Ok(clock + u64::from(after)),
        Err(NoStart::Ground(found)) => Err(Refusal::new(found.into(), 0)),
        Err(NoStart::Short(x)) => Err(Refusal::short(clock + u64::from(x.after), x.excess)),
    }
}

// R26 to R30, R14: what is decided of the lines gathered
fn by_lines(clock: u64, g: &Gathered, need: u16, period: u16) -> Result<u64, Refusal>
    requires { Room g.now × (clock ≤ 2 ^ 48 - 65536) }
    ensures { (result ≡ answer_from clock (decided (gathered_lines g.now) need period)) × Within clock result }
{
    answered(clock, decide::decide(g.lines(), g.gaps(), need, period))
}

// R18, R41: the first ground that holds, or the start. R21 to R26 are tested here, before the lines are gathered.
pub(crate) fn answer(t: Table, q: Request) -> Result<u64, Refusal>
    ensures { (result ≡ ask_of t q) × Within t.clock result }
{
    if t.clock > LATEST {
        return Err(Refusal::new(ground::LATE, 0));
    }
    if t.lowest(Kind::Free).is_none() {
        return Err(Refusal::new(ground::FULL, 0));
    }
    none_found(t.lowest(Kind::Unstarted), ground::WAITING)?;
    none_found(t.fault(), ground::UNSOUND)?;
    none_found(t.lowest_barred(q), ground::MISSTRETCHED)?;
    if !line::need_fits(q.need, q.period) {
        return Err(Refusal::new(ground::MISFIT, 0));
    }
    by_lines(t.clock, &crate::gather::gather(t, q), q.need, q.period)
}
