// The table that an admission leaves (R42): the running lines at their T', and the new line in the lowest empty slot (R43).
ghost use Rattle.std.specs.Prelude.{◌≡◌, ◌+◌, ◌≤◌};
ghost use Rattle.table.specs.Words.{with_slots};
ghost use Rattle.table.specs.Grounds.{asked};
ghost use Rattle.table.specs.Admit.{new_line, admitted_at};

use line::{Held, Kind, Slot};
use table::{Request, Table};

// R42: every running line at its T'.
fn stretch_all(t: Table, q: Request) -> Table
    ensures { result ≡ with_slots t (asked t q) }
{
    let mut next = t;
    for (i, &s) in t.slots.iter().enumerate() {
        next.slots[i] = s.stretched(q.stretched[i]);
    }
    next
}

// R43: without a wait it begins its first period; else it waits
fn new_line(need: u16, period: u16, wait: u16) -> Held
    ensures { result ≡ new_line need period wait }
{
    if wait > 0 {
        Held::waiting(need, period, wait)
    } else {
        Held::begun(need, period)
    }
}

// R42, R43: the lines stretched, and the new one in the lowest free slot, with no tick counted for it
pub(crate) fn admitted(t: Table, q: Request, start: u64) -> Table
    requires { (t.clock ≤ start) × (start ≤ t.clock + 65535) }
    ensures { result ≡ admitted_at t q start }
{
    let new = new_line(q.need, q.period, (start - t.clock) as u16);
    let mut next = stretch_all(t, q);
    if let Some(k) = t.lowest(Kind::Free) {
        next.slots[k] = Slot::holding(new);
        next.had[k] = 0;
    }
    next
}
