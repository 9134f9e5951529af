// A reader keeps the text and a place in it, and hands out the line that begins there. `line_from`, whose parameters are
// plain, serves every caller.
ghost use Rattle.std.specs.Prelude.{◌≡◌};
ghost use Rattle.text.specs.Lines.{bounds_at};

use crate::line::{Bounds, line_at};

#[derive(Clone, Copy)]
pub struct Reader<'a> {
    pub text: &'a [u8],
    pub at: usize,
}

impl<'a> Reader<'a> {
    // A reader at a place of a text.
    fn new(text: &'a [u8], at: usize) -> Reader<'a>
        ensures { (result.text ≡ text.entry) × (result.at ≡ at) }
    {
        Reader { text, at }
    }

    // The line that begins at the reader's place.
    fn line(self) -> Bounds
        ensures { result ≡ bounds_at self.entry.text.now self.entry.at }
    {
        line_at(self.text, self.at)
    }
}

// The line that begins at a place of a text, by a reader.
pub fn line_from(text: &[u8], at: usize) -> Bounds
    ensures { result ≡ bounds_at text.now at }
{
    Reader::new(text, at).line()
}
