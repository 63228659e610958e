// Lines gathered as slices of numbers: whether they are fit, their frame (R8), and the grounds that their sums decide, every term taken times the frame (R16).
#![tactic(auto)]

ghost use Rattle.std.specs.Prelude.{◌≡◌, ◌*◌, ◌/◌, ◌≤◌, leb};
ghost use Rattle.line.specs.Slots.{both};
ghost use Rattle.line.specs.Streams.{stream};
ghost use Rattle.sums.specs.Lines.{alike, lines_of, Fit, Packed};
ghost use Rattle.sums.specs.Weighed.{is_fit, fitting_in, number, number_of, Weighs, AddedUp, weighed_in};

// R27: the longest frame allowed
const LIMIT: u64 = 1_000_000;

// the most lines that are weighed
pub const MOST: usize = 16;

// R3: the longest time from one end of a line to the next: above every period, so that a line's second end can lie behind every first one
pub const LONGEST: u32 = 65_536;

// R17: the grounds that the lines and their sums decide.
#[derive(Clone, Copy, Debug, PartialEq, Eq)]
pub enum Ground {
    Unfit, // R24: the lines are not fit
    Misfit, // R26
    Wide, // R27
    Overload, // R28
    Behind, // R29
}

// R17: a ground's number
impl From<Ground> for u16 {
    ghost from_gives = { λ g n. n ≡ number g };

    fn from(g: Ground) -> u16 {
        match g {
            Ground::Unfit => 4,
            Ground::Misfit => 6,
            Ground::Wide => 7,
            Ground::Overload => 8,
            Ground::Behind => 9,
        }
    }
}

// R24, R25, R3: a line's numbers agree with each other
fn line_fits(end: u32, remaining: u32, need: u32, span: u32) -> bool
    ensures { result ≡ is_fit (stream end remaining need span) }
{
    remaining <= need && end <= span && need <= span && (1..=LONGEST).contains(&span)
}

// R28, R29: shares, claims and whole needs, of one line or of all, times the frame.
#[derive(Clone, Copy)]
struct Weights {
    shares: u64,
    claims: u64,
    needs: u64,
}

// R16, R27: the frame, or a share of it: at most the longest frame.
#[derive(Clone, Copy)]
struct Part {
    ticks: u64,
    ghost within: { ticks ≤ 1000000 },
}

impl Part {
    // R16, R28: C/T', times the frame
    fn share(self, need: u32, period: u32) -> Part
        requires { (1 ≤ period) × (need ≤ period) }
        ensures { result.ticks ≡ need * (self.ticks / period) }
    {
        Part {
            ticks: u64::from(need) * (self.ticks / u64::from(period)),
        }
    }

    // R16, R29: n ticks, times the frame or a share of it
    fn times(self, n: u32) -> u64
        requires { n ≤ 65536 }
        ensures { (result ≡ self.ticks * n) × (result ≤ 65536000000) }
    {
        self.ticks * u64::from(n)
    }

    // R28, R29: one line's share, claim and need, each times the frame; the age is what the first end leaves of the period.
    fn line_weights(self, end: u32, remaining: u32, need: u32, period: u32) -> Weights
        requires { Fit (stream end remaining need period) }
        ensures { Weighs self.ticks (stream end remaining need period) result }
    {
        let share = self.share(need, period);
        Weights {
            shares: share.ticks,
            claims: self.times(remaining) + share.times(period - end),
            needs: self.times(need),
        }
    }
}

// R9: lines gathered, counted from the clock: line k has the k-th number of each slice: its first end, what remains of its need, its need, and its
// span, the ticks from one end to the next: its T' for the sums, its gap for the ends (so `decide` is lent the gaps beside the lines).
// No slice of structs: `fits` and `weigh` have an answer for slices that differ in length (`fitting_in`, `weighed_in`): they are not fit.
#[derive(Clone, Copy)]
pub struct Lines<'a> {
    pub ends: &'a [u32],
    pub remaining: &'a [u32],
    pub needs: &'a [u32],
    pub spans: &'a [u32],
}

impl<'a> Lines<'a> {
    // the four slices have the same length
    fn same_length(self) -> bool
        ensures { result ≡ alike self.entry.ends.now self.entry.remaining.now self.entry.needs.now self.entry.spans.now }
    {
        let n = self.ends.len();
        self.remaining.len() == n && self.needs.len() == n && self.spans.len() == n
    }

    // R24, R25, R3: slices of one length, sixteen lines at most, each of them fit
    pub fn fits(self) -> bool
        ensures { result ≡ fitting_in self.entry.ends.now self.entry.remaining.now self.entry.needs.now self.entry.spans.now }
    {
        self.same_length()
            && self.ends.len() <= MOST
            && self
                .ends
                .iter()
                .zip(self.remaining)
                .zip(self.needs)
                .zip(self.spans)
                .all(|(((end, remaining), need), span)| line_fits(*end, *remaining, *need, *span))
    }

    // R28, R29: the lines' shares, claims and needs, each added up
    fn add_up(self, frame: Part) -> Weights
        requires { Packed self.ends.now self.remaining.now self.needs.now self.spans.now }
        ensures { AddedUp (lines_of self.entry.ends.now self.entry.remaining.now self.entry.needs.now self.entry.spans.now) frame.ticks result }
    {
        let mut all = Weights {
            shares: 0,
            claims: 0,
            needs: 0,
        };
        for (((end, remaining), need), period) in self
            .ends
            .iter()
            .zip(self.remaining)
            .zip(self.needs)
            .zip(self.spans)
        {
            let w = frame.line_weights(*end, *remaining, *need, *period);
            all.shares += w.shares;
            all.claims += w.claims;
            all.needs += w.needs;
        }
        all
    }

    // R18, R26 to R29: the first ground that holds of the lines and a new one, whose spans are their periods
    pub fn weigh(self, need: u16, period: u16) -> Result<(), Ground>
        ensures { number_of result ≡ weighed_in self.entry.ends.now self.entry.remaining.now self.entry.needs.now self.entry.spans.now need period }
    {
        if !self.fits() {
            return Err(Ground::Unfit);
        }
        if !line::need_fits(need, period) {
            return Err(Ground::Misfit);
        }
        let (need, period) = (u32::from(need), u32::from(period));
        let ticks = periods::frame(period, self.spans);
        if ticks > LIMIT {
            return Err(Ground::Wide);
        }
        let frame = Part { ticks };
        let all = self.add_up(frame);
        if all.shares + frame.share(need, period).ticks > ticks {
            return Err(Ground::Overload);
        }
        if all.claims > all.needs {
            return Err(Ground::Behind);
        }
        Ok(())
    }
}
