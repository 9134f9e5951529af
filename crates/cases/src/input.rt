// What the program reads from its input: a byte, and a line.
ghost use Rattle.std.specs.Prelude.{◌+◌, ◌≤◌, length};

use std::io::Read;

// The next byte of the reader, if there is one.
pub fn next_byte(reader: &mut impl Read) -> Option<u8> {
    let mut one = [0u8; 1];
    reader.read_exact(&mut one).ok()?;
    Some(one[0])
}

// Reads a line, without its line feed: how long it is, 0 at the end of the input.
pub fn read_line(reader: &mut impl Read, line: &mut [u8]) -> usize
    ensures { result ≤ length line.old }
{
    for i in 0..line.len() {
        match next_byte(reader) {
            None | Some(b'\n') => return i,
            Some(b) => line[i] = b,
        }
    }
    line.len()
}
