// What the programs read their input with.
#![tactic(auto)]

ghost use Rattle.std.specs.Prelude.{◌<◌, ◌≤◌, ℕ, length, take, IfOk, OnErr};
ghost use Rattle.std.specs.Io.KnownBytes.{Consumes, IsAtEnd};

use std::io;
use std::io::Read;

/// Reads until the slice is full or the reader ends, and gives how many bytes there are. Where a read fails, what was read before stands at the front.
/// std's read_to_end says as much of a vector, which is on the heap.
pub fn fill<R: Read>(reader: &mut R, bytes: &mut [u8]) -> io::Result<usize>
    ensures room { IfOk result (λ n. n ≤ length bytes.old) }
    ensures front { IfOk result (λ n. Consumes (R.remaining reader.old) (R.remaining reader.new)
        (take n bytes.new)) }
    ensures whole { IfOk result (λ n. n < length bytes.old → IsAtEnd (R.remaining reader.new)) }
    ensures err { OnErr result ((n : ℕ) × Consumes (R.remaining reader.old) (R.remaining reader.new)
        (take n bytes.new)) }
{
    let mut n = 0;
    while n < bytes.len() {
        let more = reader.read(&mut bytes[n..])?;
        if more == 0 {
            return Ok(n);
        }
        n += more;
    }
    Ok(n)
}
