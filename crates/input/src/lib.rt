// What the programs that take one card read from standard input (R60, R94). A read that fails is told from the end of the input, and the
// bytes before either are counted, which `Read::read_exact` does not do.
#![tactic(auto)]

ghost use Rattle.std.specs.Prelude.{IfOk};
ghost use Rattle.input.specs.Counts.{Counts, Begins, Fills, taken};

use std::io::Read;

// R60, R94: a read that failed, and how many bytes came before it.
#[derive(Clone, Copy)]
pub struct Failed {
    pub len: usize,
}

// R60, R94: reads until `into` is full, the input ends or a read fails.
#[tactic(auto, using(crate::proofs::Read::consumes_more))]
pub fn take<R: Read>(from: &mut R, into: &mut [u8]) -> Result<usize, Failed>
    ensures counts { Counts (taken result) into.new }
    ensures bytes { Begins (taken result) into.new (R.remaining from.old) }
    ensures all { IfOk result (λ n. Fills n into.new (R.remaining from.old)) }
{
    let mut at = 0;
    // Counted by hand: a read moves `at` by as many bytes as it gives.
    while at < into.len() {
        match from.read(&mut into[at..]) {
            Ok(0) => return Ok(at),
            Ok(n) => at += n,
            Err(_) => return Err(Failed { len: at }),
        }
    }
    Ok(at)
}
