// Bytes of the input.
ghost use Rattle.std.specs.Prelude.{◌≤◌, length, IfOk};

use std::io;
use std::io::Read;

// Reads until the bytes are full or the input ends: how many were read.
pub fn read_full(input: &mut impl Read, bytes: &mut [u8]) -> io::Result<usize>
    ensures { IfOk result (λ n. n ≤ length bytes.new) }
{
    let mut got = 0;
    // Kept: a turn goes on by what was read, and `read_exact` doesn't say how much came before the end.
    while got < bytes.len() {
        let n = input.read(&mut bytes[got..])?;
        if n == 0 {
            return Ok(got);
        }
        got += n;
    }
    Ok(got)
}
