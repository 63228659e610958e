// The lines of a table as a request would have them, gathered once: in the order of the slots, and counted from the clock.
ghost use Rattle.std.specs.Prelude.{◌≡◌, ◌<◌, take};
ghost use Rattle.decide.specs.Lines.{gap_of};
ghost use Rattle.ask.specs.Gathered.{Gathers, Room, Sixteen, pushed};

use line::{Follows, Stream};
use sums::Lines;
use table::{Request, Table};

// R9: line k, for k below `count`: its first end, counted from the clock; what remains of its need, its need, its T', and the gap from one of
// its ends to the next. Numbers beside each other and no array of lines, since `decide` takes slices of numbers and has an answer for unequal ones
// (`decided_in`); a count beside them and no Vec, since the memory is fixed.
#[derive(Clone, Copy)]
pub(crate) struct Gathered {
    count: usize,
    end: [u32; 16],
    remaining: [u32; 16],
    need: [u32; 16],
    period: [u32; 16],
    gap: [u32; 16],
}

// R9, R99: the ticks from one end of a line to the next. A line that leaves has no second end: its gap puts it after every first one.
fn gap(s: Stream) -> u32
    ensures { result ≡ gap_of s }
{
    match s.follows {
        Follows::Renews => u32::from(s.period),
        Follows::Leaves => sums::LONGEST,
    }
}

impl Gathered {
    // R9: a line behind those before it
    fn push(&mut self, s: Stream)
        requires { Sixteen self.old × (self.old.count < 16) }
        ensures { self.new ≡ pushed self.old s }
    {
        let k = self.count;
        self.end[k] = u32::from(s.end);
        self.remaining[k] = u32::from(s.remaining);
        self.need[k] = u32::from(s.need);
        self.period[k] = u32::from(s.period);
        self.gap[k] = gap(s);
        self.count = k + 1;
    }

    // R9: the lines, each with its T'
    pub(crate) fn lines(&self) -> Lines<'_>
        requires { Room self.now }
        ensures ends { result.ends.now ≡ take self.now.count self.now.end }
        ensures remaining { result.remaining.now ≡ take self.now.count self.now.remaining }
        ensures needs { result.needs.now ≡ take self.now.count self.now.need }
        ensures spans { result.spans.now ≡ take self.now.count self.now.period }
    {
        let n = self.count;
        Lines {
            ends: &self.end[..n],
            remaining: &self.remaining[..n],
            needs: &self.need[..n],
            spans: &self.period[..n],
        }
    }

    // R9: their gaps
    pub(crate) fn gaps(&self) -> &[u32]
        requires { Room self.now }
        ensures { result.now ≡ take self.now.count self.now.gap }
    {
        &self.gap[..self.count]
    }
}

// R6: a slot that holds no line is passed over, and its entry with it.
// The arrays are written where they stand: a function that hands them on by value would copy them all for every slot.
pub(crate) fn gather(t: Table, q: Request) -> Gathered
    ensures { Gathers t q result }
{
    let none = [0; 16];
    let mut g = Gathered {
        count: 0,
        end: none,
        remaining: none,
        need: none,
        period: none,
        gap: none,
    };
    for (i, &s) in t.slots.iter().enumerate() {
        if !s.is_empty() {
            g.push(s.stretched(q.stretched[i]).asks());
        }
    }
    g
}
