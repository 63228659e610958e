// Numbers of eight bytes, the lowest byte first: the clock, a slot's four numbers as one, the counts.
ghost use Rattle.std.specs.Prelude.{◌≡◌, ℕ, List, ◌++◌, ◌+◌, ◌≤◌, length, drop, refl};
ghost use Rattle.card.specs.Bytes.{le, value};

use crate::pieces::Piece;

// R81: the number in the eight bytes from an offset on.
pub(crate) fn eight_at(s: &[u8], at: usize) -> u64
    requires { at + 8 ≤ length s.now }
    ensures { result ≡ value 8 s.now at }
{
    u64::from_le_bytes(s[at..at + 8].try_into().unwrap())
}

// R81: a number in the eight bytes in front.
pub(crate) fn put_eight(out: &mut [u8], v: u64)
    requires { 8 ≤ length out.old }
    ensures { out.new ≡ le 8 v ++ drop 8 out.old }
{
    out[..8].copy_from_slice(&v.to_le_bytes());
}

// R81: a count.
impl Piece for u64 {
    ghost WIDTH = { 8 };

    ghost bytes_of = { le 8 };

    ghost found = { λ (l : List ℕ). value 8 l 0 };

    const WIDTH: usize = 8;

    fn get(s: &[u8]) -> u64 {
        eight_at(s, 0)
    }

    fn put(self, out: &mut [u8]) {
        put_eight(out, self)
    }

    ghost wide = { λ v. refl };
}
