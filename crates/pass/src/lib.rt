// The pass over the running lines' ends in time order, counted from the clock: the excess at each end gives refusal 10 (R30, R103) or the start (R14).
#![tactic(auto)]

ghost use Rattle.std.specs.Prelude.{◌≡◌, ◌≤◌, ◌-ℤ◌, pos, length};
ghost use Rattle.line.specs.Ends.{bound};
ghost use Rattle.pass.specs.Pass.{greatest_end, pass_to, passed_in, FitNew};
ghost use Rattle.pass.specs.Order.{nth, next_of, LinedUp, Soonest, Moved, added_at, Places, lines_from, FitFrom};

use sums::Lines;

// R103: the first tick at which the running lines have an excess above 0, counted from the clock, and that excess.
#[derive(Clone, Copy)]
pub struct FirstExcess {
    pub after: u32,
    pub excess: u32,
}

// R30, R14: why the ends leave no start: one of them is short, and this is the first; or the lines are not fit.
#[derive(Clone, Copy)]
pub enum NoPass {
    Short(FirstExcess),
    Unfit,
}

// R12, R30: the excess of the running lines at d, where `sum` is their demand: below 0 for time to spare, above 0 for ticks short
fn excess_at(sum: u32, d: u32) -> i64
    ensures { result ≡ pos sum -ℤ pos d }
{
    sum as i64 - d as i64
}

// R15: the greatest first end, or 0 where no line runs.
fn last_end(ends: &[u32]) -> u32
    ensures { result ≡ greatest_end ends.now }
{
    ends.iter().copied().max().unwrap_or(0)
}

// R6, R15: the new line, and the last end.
#[derive(Clone, Copy)]
struct New {
    need: u32,
    period: u32,
    last: u32,
}

impl New {
    // R14: the least start that the slack s at d leaves the new line before the last end. The slack pays for s / need of its periods, and the
    // next one must not end before the time for it has gone by.
    #[tactic(auto, unfolding(line::specs::Ends::bound))]
    fn bound_at(self, d: u32, s: u32) -> u32
        requires { FitNew self × (d ≤ 65535) × (s ≤ 65535) }
        ensures { result ≡ bound self.need self.period self.last d s }
    {
        let spare = s % self.need;
        let until = (d + self.need - spare).min(self.last);
        let before = (s / self.need + 1) * self.period;
        until.saturating_sub(before)
    }
}

// R9, R10: when a line ends next, and what falls due of it then.
#[derive(Clone, Copy)]
struct Due {
    at: u32,
    owed: u32,
}

// R9, R10: each line at its first end, where what remains of it falls due; and the soonest of these ends, or `last`.
fn line_up(lines: Lines, dues: &mut [Due], last: u32) -> u32
    requires { (length lines.remaining.now ≡ length lines.ends.now) × (length lines.ends.now ≤ length dues.old) }
    ensures lined_up { LinedUp lines.entry.ends.now lines.entry.remaining.now dues.new }
    ensures soonest { Soonest (nth lines.entry.ends.now) (length lines.entry.ends.now) last result }
{
    let mut first = last;
    for (i, &at) in lines.ends.iter().enumerate() {
        dues[i] = Due {
            at,
            owed: lines.remaining[i],
        };
        first = first.min(at);
    }
    first
}

// R12: what a tick brings: the demand that falls due at it, and the tick that comes next.
#[derive(Clone, Copy)]
struct Brought {
    added: u32,
    soonest: u32,
}

// R9, R10: takes every line that ends at d, lowest slot first. What it owes falls due, and it moves on to its next end, where its need falls due.
fn take_ends(lines: Lines, dues: &mut [Due], d: u32, last: u32) -> Brought
    requires { Places dues.old lines.needs.now lines.spans.now × (d ≤ 65536) }
    ensures moved { Moved dues.old lines.entry.needs.now lines.entry.spans.now d dues.new }
    ensures added_value { (result.added ≡ added_at dues.old (length lines.entry.spans.now) d) × (result.added ≤ 1048576) }
    ensures soonest { Soonest (next_of dues.new) (length lines.entry.spans.now) last result.soonest }
{
    let mut added: u32 = 0;
    let mut soonest = last;
    for (i, &span) in lines.spans.iter().enumerate() {
        let mut at = dues[i].at;
        if at == d {
            added += dues[i].owed;
            at = d + span;
            dues[i] = Due {
                at,
                owed: lines.needs[i],
            };
        }
        soonest = soonest.min(at);
    }
    Brought { added, soonest }
}

// R30, R103, R14: the ends before the last one in time order, each tick once, with the demand carried along. The first short one ends it.
fn in_order(lines: Lines, dues: &mut [Due], new: New, first: u32) -> Result<u32, NoPass>
    requires places { Places dues.old lines.needs.now lines.spans.now × FitFrom dues.old lines.needs.now lines.spans.now × FitNew new }
    requires soonest { Soonest (next_of dues.old) (length lines.spans.now) new.last first }
    ensures { result ≡ pass_to new.last (lines_from dues.old lines.entry.needs.now lines.entry.spans.now) new.need new.period }
{
    let mut sum: u32 = 0;
    let mut start: u32 = 0;
    let mut d = first;
    // From tick to tick, and not one by one: the lines say which comes next.
    while d < new.last {
        let taken = take_ends(lines, dues, d, new.last);
        sum += taken.added;
        let x = excess_at(sum, d);
        if x > 0 {
            return Err(NoPass::Short(FirstExcess {
                after: d,
                excess: x as u32,
            }));
        }
        let b = new.bound_at(d, d - sum);
        start = start.max(b);
        d = taken.soonest;
    }
    Ok(start)
}

// R30, R14: the pass over the ends, where a line's span is its gap. Slices that differ in length, lines that are not fit, and a need of 0, are `Unfit`.
pub fn over_ends(lines: Lines, need: u16, period: u16) -> Result<u32, NoPass>
    ensures { result ≡ passed_in lines.entry.ends.now lines.entry.remaining.now lines.entry.needs.now lines.entry.spans.now need period }
{
    if !lines.fits() || need < 1 {
        return Err(NoPass::Unfit);
    }
    let new = New {
        need: u32::from(need),
        period: u32::from(period),
        last: last_end(lines.ends),
    };
    let mut dues = [Due { at: 0, owed: 0 }; sums::MOST];
    let first = line_up(lines, &mut dues, new.last);
    in_order(lines, &mut dues, new, first)
}
