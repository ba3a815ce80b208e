// Reads a text.
ghost use Rattle.std.specs.Prelude.{◌≤◌, length};

use std::io::Read;

// Reads until the buffer is full, the text ends or a read fails, and answers how many bytes were read.
pub fn read_text<R: Read>(from: &mut R, buffer: &mut [u8]) -> usize
    ensures { result ≤ length buffer.new }
{
    let mut count = 0;
    // A `while`: each turn goes on by as many bytes as a read gives.
    while count < buffer.len() {
        let more = from.read(&mut buffer[count..]).unwrap_or(0);
        if more == 0 {
            return count;
        }
        count += more;
    }
    count
}
