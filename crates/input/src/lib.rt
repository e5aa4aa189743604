// Reading standard input, or another reader, into a buffer.
#![tactic(auto)]

ghost use Rattle.std.specs.Prelude.{◌≤◌, IfOk, length};

use std::io;
use std::io::Read;

// Reads until the buffer is full or the input ends, and gives how many bytes stand at the start of the buffer.
// No method of Read does so: read_exact loses the count where the input ends, and read_to_end needs a heap.
pub fn read_full(input: &mut impl Read, buffer: &mut [u8]) -> io::Result<usize>
    ensures { IfOk result (λ n. n ≤ length buffer.new) }
{
    let mut size: usize = 0;
    while size < buffer.len() {
        let more = input.read(&mut buffer[size..])?;
        if more == 0 {
            return Ok(size);
        }
        size += more;
    }
    Ok(size)
}
