// What a program reads: any input's bytes, put at the start of a lent buffer. Both programs read through it. Stands on no other crate.
#![tactic(auto)]

ghost use Rattle.std.specs.Prelude.{◌<◌, length, take, IfOk};
ghost use Rattle.std.specs.Counts.{IsPrefixLen};
ghost use Rattle.std.specs.Io.KnownBytes.{Consumes, IsAtEnd};

use std::io;
use std::io::Read;

// Reads until the buffer is full or the input ends: how many bytes stand at its start.
pub fn read_full<R: Read>(input: &mut R, buf: &mut [u8]) -> io::Result<usize>
    ensures counts { IfOk result (λ n. IsPrefixLen n buf.new) }
    ensures bytes { IfOk result (λ n. Consumes (R.remaining input.old) (R.remaining input.new) (take n buf.new)) }
    ensures end { IfOk result (λ n. n < length buf.new → IsAtEnd (R.remaining input.new)) }
{
    let mut done = 0;
    // no `for`: a turn moves on by what a read gave
    while done < buf.len() {
        let n = input.read(&mut buf[done..])?;
        if n == 0 {
            break;
        }
        done += n;
    }
    Ok(done)
}
