// The stored set of cards, answered one after the other as the answering program (R60) answers one card: by `calls::cards::answer`.
// A card is its length in two bytes, low byte first, and that many bytes; the length 65,535 ends the set.
#![tactic(auto)]

ghost use Rattle.std.specs.Prelude.{◌≡◌, ◌+◌, ◌≤◌};

use std::io::Read;

// The lines that have not been written yet, gathered in fixed memory: with a write for each line a run took a quarter more time to a file, and half as much
// again to a pipe.
#[derive(Drop)]
struct Lines {
    bytes: [u8; 4096],
    len: usize,
    ghost within: { len ≤ 4096 },
}

impl Lines {
    // Where the longest line would not fit any more, the lines are written.
    fn make_room(&mut self, to: &impl Print)
        ensures { self.new.len + 72 ≤ 4096 }
    {
        if self.bytes.len() - self.len < 72 {
            self.write(to);
        }
    }

    // The line of a card's answer, behind those before it.
    fn add(&mut self, to: &impl Print, reply: reply::Reply) {
        self.make_room(to);
        let line = reply.line();
        let end = self.len + line.len();
        self.bytes[self.len..end].copy_from_slice(line);
        self.len = end;
    }

    // Writes them all.
    fn write(&mut self, to: &impl Print)
        ensures { self.new.len ≡ 0 }
    {
        let _ = to.write_all(&self.bytes[..self.len]);
        self.len = 0;
    }
}

// The next card; none at the end of the set. An input that is cut within a card ends it, and so does a card that is longer than any of the stored ones.
fn next_card<'a>(from: &mut impl Read, room: &'a mut [u8]) -> Option<&'a [u8]> {
    let mut len = [0u8; 2];
    from.read_exact(&mut len).ok()?;
    let card = room.get_mut(..usize::from(u16::from_le_bytes(len)))?;
    from.read_exact(card).ok()?;
    Some(card)
}

// No set has an end that a proof knows of, so the cards are counted.
fn main(rt: HostRuntime) {
    let mut room = [0u8; 256];
    let mut lines = Lines {
        bytes: [0; 4096],
        len: 0,
    };
    for _ in 0..20000 {
        let Some(card) = next_card(&mut rt.stdin(), &mut room) else {
            break;
        };
        lines.add(&rt, reply::reply_to(calls::cards::answer(card)));
    }
    lines.write(&rt);
}
