// Input, read to the end of a buffer or to its own.
#![tactic(auto)]

ghost use Rattle.std.specs.Prelude.{◌≤◌, ◌<◌, ℕ, length, take, IfOk, OnErr};
ghost use Rattle.std.specs.Io.{ReadsAtMost};
ghost use Rattle.std.specs.Io.KnownBytes.{Consumes, IsAtEnd};

use std::io;
use std::io::Read;

// Reads to the front of `buf` until it is full or the input ends, and answers how many bytes there are. An error is the
// reader's, also that of a read which a signal cut off, and none comes where there is nothing to fill; what was read before it
// stands at the front. The loop counts, since the count is the answer; the contract of `read_exact` says little after an error.
pub fn read_full<R: Read>(from: &mut R, buf: &mut [u8]) -> io::Result<usize>
    ensures bound { ReadsAtMost result buf.new }
    ensures bytes { IfOk result (λ n. Consumes (R.remaining from.old) (R.remaining from.new) (take n buf.new)) }
    ensures end { IfOk result (λ n. n < length buf.new → IsAtEnd (R.remaining from.new)) }
    ensures err { OnErr result (0 < length buf.new) }
    ensures left { OnErr result ((n : ℕ) × (n ≤ length buf.new) × Consumes (R.remaining from.old) (R.remaining from.new) (take n buf.new)) }
{
    let mut done = 0;
    while done < buf.len() {
        let n = from.read(&mut buf[done..])?;
        if n == 0 {
            break;
        }
        done += n;
    }
    Ok(done)
}
