// The exact planner as a program: a text table on standard input, its plan on standard output.
#![tactic(auto)]

ghost use Rattle.std.specs.Prelude.{ℕ, ◌<◌, ◌≤◌, length, take, IfOk, IfErr};
ghost use Rattle.std.specs.Io.{ReadsAtMost};
ghost use Rattle.std.specs.Io.KnownBytes.{Consumes, IsAtEnd};

use std::io;
use std::io::Read;

fn main(rt: HostRuntime) -> io::Result<()> {
    // one byte more than a text may have
    let mut input = [0u8; 1025];
    let n = read_full(&mut rt.stdin(), &mut input)?;
    let mut out = [0u8; console::MOST];
    let k = console::run(&input[..n], &mut out);
    rt.write_all(&out[..k])
}

// Reads until the buffer is full or the input ends, and answers how many bytes there are. A failed read leaves what came before it.
fn read_full<R: Read>(input: &mut R, buf: &mut [u8]) -> io::Result<usize>
    ensures bound { ReadsAtMost result buf.new }
    ensures bytes { IfOk result (λ n. Consumes (R.remaining input.old) (R.remaining input.new) (take n buf.new)) }
    ensures end { IfOk result (λ n. n < length buf.new → IsAtEnd (R.remaining input.new)) }
    ensures err { IfErr result
        (λ _. (n : ℕ) × (n ≤ length buf.new) × Consumes (R.remaining input.old) (R.remaining input.new) (take n buf.new)) }
{
    // A loop of its own: `read_exact` tells no count where the input ends early, and `read_to_end` allocates.
    let mut done = 0;
    while done < buf.len() {
        match input.read(&mut buf[done..])? {
            0 => break,
            n => done += n,
        }
    }
    Ok(done)
}
