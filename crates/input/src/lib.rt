// The text that a program is given: a reader up to its end, or as much of it as a buffer holds.
#![tactic(auto)]

ghost use Rattle.std.specs.Prelude.{◌≤◌, length, IfOk};

use std::io;
use std::io::Read;

// Fills the buffer from the reader up to its end: how many bytes came. The first read that fails ends it.
pub fn read_text(reader: &mut impl Read, text: &mut [u8]) -> io::Result<usize>
    ensures { IfOk result (λ n. n ≤ length text.old) }
{
    let mut n: usize = 0;
    while n < text.len() {
        let more = reader.read(&mut text[n..])?;
        if more == 0 {
            return Ok(n);
        }
        n += more;
    }
    Ok(n)
}
