// "The program reads standard input as an image" and prints it, or why not.
#![tactic(auto)]

ghost use Rattle.std.specs.Prelude.{◌≤◌, length, IfOk};

use std::io::{self, Read, Write};

// Reads until the buffer is full or the input ends, and says how many bytes stand in it now.
fn read_full<R: Read>(from: &mut R, buf: &mut [u8]) -> io::Result<usize>
    ensures { IfOk result (λ n. n ≤ length buf.new) }
{
    let mut done: usize = 0;
    // A `while`, since the reader says how far each turn comes: `read_exact` takes a short input for an error, and `io::copy` promises no bound on its count.
    while done < buf.len() {
        let n = from.read(&mut buf[done..])?;
        if n == 0 {
            return Ok(done);
        }
        done += n;
    }
    Ok(done)
}

fn main(rt: HostRuntime) -> io::Result<()> {
    // One byte more than an image has: so a longer input is seen to be longer.
    let mut input = [0u8; 34305];
    let n = read_full(&mut rt.stdin(), &mut input)?;
    // As long as the longest text may be.
    let mut out = [0u8; 47691];
    let end = listing::print(&input[..n], &mut out);
    rt.stdout().write_all(&out[..end])
}
