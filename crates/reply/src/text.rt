// A line that grows in a lent buffer.
ghost use Rattle.std.specs.Prelude.{◌≡◌, ◌+◌, ◌≤◌, length};
ghost use Rattle.reply.specs.Line.{digits, Grown};

// R61: a line that is being put at the start of a lent buffer: its first `at` bytes.
#[derive(Drop)]
pub(crate) struct Line<'a> {
    pub(crate) out: &'a mut [u8],
    pub(crate) at: usize,
}

impl Line<'_> {
    // R61: puts the bytes s behind the line.
    pub(crate) fn text(&mut self, s: &[u8])
        requires { self.old.at + length s.now ≤ length self.old.out.now }
        ensures { Grown s.now self.old self.new }
    {
        let end = self.at + s.len();
        self.out[self.at..end].copy_from_slice(s);
        self.at = end;
    }

    // R61: puts the decimal digits of n behind the line.
    #[inline]
    pub(crate) fn number(&mut self, n: u64)
        requires { self.old.at + length (digits n) ≤ length self.old.out.now }
        ensures { Grown (digits n) self.old self.new }
    {
        let end = self.at + places(n);
        itoa::write_digits(n, self.out, end);
        self.at = end;
    }
}

// R61: how many decimal digits n has.
pub(crate) fn places(n: u64) -> usize
    ensures { result ≡ length (digits n) }
{
    n.max(1).ilog10() as usize + 1
}
