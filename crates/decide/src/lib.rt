// The decision on numbers alone: the grounds that the lines gathered decide (R26 to R30) in their order (R18), and the least smooth start (R14).
#![tactic(auto)]

ghost use Rattle.std.specs.Prelude.{◌≡◌};
ghost use Rattle.decide.specs.declared.NoStart.TheVariants as no;
ghost use Rattle.decide.specs.Decided.{no_start, said, decided_in, Near};

use pass::NoPass;
use sums::{Ground, Lines};

// R17, R103: why there is no start: a ground that the sums decide, or of ground 10 the first tick that is short, and its excess.
#[derive(Clone, Copy)]
pub enum NoStart {
    Ground(Ground),
    Short(pass::FirstExcess),
}

// R24, R26 to R29: a ground that the sums decide
impl From<Ground> for NoStart {
    ghost from_gives = { λ g x. x ≡ no.Ground g };

    fn from(g: Ground) -> NoStart {
        NoStart::Ground(g)
    }
}

// R30, R24: what the pass says
impl From<NoPass> for NoStart {
    ghost from_gives = { λ p x. x ≡ no_start p };

    fn from(p: NoPass) -> NoStart {
        match p {
            NoPass::Short(x) => NoStart::Short(x),
            NoPass::Unfit => NoStart::Ground(Ground::Unfit),
        }
    }
}

// R18, R14: the first ground that holds, or the start, counted from the clock. A line's span is its T' here, and its gap, from one of its ends to the
// next, has the line's place in `gaps`. Slices that differ in length and lines that are not fit are refused with 4 (R24).
pub fn decide<'a>(lines: Lines<'a>, gaps: &'a [u32], need: u16, period: u16) -> Result<u32, NoStart>
    ensures says { said result ≡ decided_in lines.entry.ends.now lines.entry.remaining.now lines.entry.needs.now lines.entry.spans.now gaps.now need period }
    ensures near { Near (said result) }
{
    if gaps.len() != lines.ends.len() {
        return Err(NoStart::Ground(Ground::Unfit));
    }
    lines.weigh(need, period)?;
    let spaced = Lines {
        spans: gaps,
        ..lines
    };
    Ok(pass::over_ends(spaced, need, period)?)
}
