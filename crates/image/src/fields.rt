// A slot's nine bytes: its kind, and its four numbers as one number of eight bytes.
ghost use Rattle.std.specs.Prelude.{◌≡◌, List, ℕ, ◌∷◌, ◌++◌, ◌%◌, ◌≤◌, length, drop, refl};
ghost use Rattle.line.specs.Slots.{holding};
ghost use Rattle.card.specs.Bytes.{le};
ghost use Rattle.image.specs.Image.{slot_bytes};
ghost use Rattle.image.specs.Loading.{held_in};
ghost use Rattle.line.specs.declared.Held.TheVariants.{Nothing, Running, Waiting};
ghost use Rattle.line.specs.declared.Slot.{Slot};

use crate::kinds::{LEAVING, NOTHING, RUNNING, WAITING, run_kind};
use crate::numbers::{eight_at, put_eight};
use crate::pieces::Piece;
use line::{Follows, Held, Slot};

// R81: the lowest two bytes of a number. No From narrows, and `try_from` would answer for what cannot be.
fn lowest(v: u64) -> u16
    ensures { result ≡ v % 65536 }
{
    (v % 65536) as u16
}

// R81: four numbers of two bytes as one of eight, the first lowest. std makes bytes of a number, and no number of four; by its bytes they would be moved
// one by one.
fn four(a: u16, b: u16, c: u16, d: u16) -> u64
    ensures { le 8 result ≡ le 2 a ++ (le 2 b ++ (le 2 c ++ le 2 d)) }
{
    let low = a as u64 + b as u64 * 65536;
    let high = c as u64 + d as u64 * 65536;
    low + high * 4294967296
}

// R81: a byte and a number in eight bytes.
pub(crate) fn put_nine(out: &mut [u8], first: u8, v: u64)
    requires { 9 ≤ length out.old }
    ensures { out.new ≡ (first ∷ le 8 v) ++ drop 9 out.old }
{
    out[0] = first;
    put_eight(&mut out[1..], v);
}

// R81: a slot's nine bytes.
impl Piece for Slot {
    ghost WIDTH = { 9 };

    ghost bytes_of = { λ (s : Slot). slot_bytes s.held };

    ghost found = { λ (l : List ℕ). holding (held_in l) };

    const WIDTH: usize = 9;

    // Its numbers are taken before the kind is looked at, so that all four are moved at once: twice as quick.
    fn get(s: &[u8]) -> Slot {
        let v = eight_at(s, 1);
        let first = lowest(v);
        let second = lowest(v / 65536);
        let third = lowest(v / 4294967296);
        let fourth = lowest(v / 281474976710656);
        match s[0] {
            RUNNING => Slot::holding(Held::running(first, second, third, fourth, Follows::Renews)),
            WAITING => Slot::holding(Held::waiting(first, second, third)),
            LEAVING => Slot::holding(Held::running(first, second, third, fourth, Follows::Leaves)),
            _ => Slot::empty(),
        }
    }

    fn put(self, out: &mut [u8]) {
        match self.held {
            Held::Nothing => put_nine(out, NOTHING, 0),
            Held::Running(r) => {
                let numbers = four(r.need, r.period, r.age, r.remaining);
                put_nine(out, run_kind(r.follows), numbers)
            }
            Held::Waiting(w) => {
                let numbers = four(w.need, w.period, w.wait, 0);
                put_nine(out, WAITING, numbers)
            }
        }
    }

    ghost wide = { λ s. elim s.held as (λ h. length (slot_bytes h) ≡ 9) [ Nothing ↦ refl | Running r ↦ refl | Waiting w ↦ refl ] };
}
