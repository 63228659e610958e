// A line in an array.
ghost use Rattle.std.specs.Prelude.{◌≡◌, ◌≤◌};

// R61: a line in an array that is long enough for every answer: its first `len` bytes are the line, and the rest are 0 (`Replied`).
// An array with its length, since the memory is fixed.
#[derive(Clone, Copy)]
pub struct Reply {
    pub bytes: [u8; 72],
    pub len: usize,
    ghost within: { len ≤ 72 },
}

impl Reply {
    ghost use Rattle.reply.specs.Line.{line_of};

    // R61: the line.
    pub fn line(&self) -> &[u8]
        ensures { result.now ≡ line_of self.now }
    {
        &self.bytes[..self.len]
    }
}
