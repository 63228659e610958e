// The step of the pump, R44 to R48: who gets the tick, the table a tick later, and the refusals 15, 4, 14.
ghost use Rattle.std.specs.Prelude.{◌≡◌, ◌^◌, ◌≤◌, ◌<◌};
ghost use Rattle.table.specs.Counts.{Inside, accounted};
ghost use Rattle.table.specs.Turn.{Turns};
ghost use Rattle.table.specs.Step.{served_at, advance, step_of};

use crate::{Acted, Table, ground};

// R45: slot `i`, which held `s`, after the slot named, or none, has got the tick.
fn served(turn: Option<usize>, i: usize, s: line::Slot) -> line::Slot
    ensures { result ≡ served_at turn i s }
{
    match turn {
        Some(k) if k == i => s.served(),
        _ => s,
    }
}

impl Table {
    // R24, R44: to whom the tick goes, or the lowest slot whose line is unsound. It goes to the least end of those owed; among equals who ran last goes on,
    // else the lowest slot has it. One loop for both: a table is copied for each. Who ran last is looked at before it, so that the comparison after it need not wait for that.
    fn choose(self) -> Result<Option<usize>, usize>
        ensures { Turns self result }
    {
        let last = self.last as usize;
        let going = match self.slots.get(last) {
            Some(s) => s.key(),
            None => line::NOT_OWED,
        };
        let mut best = 0;
        let mut least = line::NOT_OWED;
        for (i, &s) in self.slots.iter().enumerate() {
            if !s.sound() {
                return Err(i);
            }
            let key = s.key();
            if key < least {
                least = key;
                best = i;
            }
        }
        let turn = if going <= least { last } else { best };
        Ok((least < line::NOT_OWED).then_some(turn))
    }

    // R45 to R48: a tick in which the slot named, or none, is served: what each slot holds then, or 14 at the lowest whose period ends short (R34).
    // What a line had that departs with it is counted so (R101).
    fn advance(self, w: Option<usize>) -> Acted<Option<usize>>
        requires { (self.clock < 2 ^ 48) × (accounted self ≤ self.clock) × Inside 16 w }
        ensures { result ≡ advance w self }
    {
        let mut next = self.counting(w);
        for (i, &old) in self.slots.iter().enumerate() {
            let s = served(w, i, old);
            if s.short() {
                return self.refused(ground::MISSED, i as u64);
            }
            next.slots[i] = s.passed();
            if s.departs() {
                next = next.settled(i);
            }
        }
        next.clock = self.clock + 1;
        Acted {
            table: next,
            answer: Ok(w),
        }
    }

    // R48: 15, then 4, the lines before the counts, then 14.
    #[tactic(auto, unfolding(crate::specs::Step::step_of))]
    pub fn step(self) -> Acted<Option<usize>>
        ensures { result ≡ step_of self }
    {
        if 281474976710656 <= self.clock {
            return self.refused(ground::LAST_TICK, 0);
        }
        match self.choose() {
            Err(k) => self.refused(ground::UNSOUND, k as u64),
            Ok(w) => {
                if self.overcounted() {
                    return self.refused(ground::UNSOUND, 0);
                }
                self.advance(w)
            }
        }
    }
}
