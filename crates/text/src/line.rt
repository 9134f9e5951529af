// The line that begins at a place of a text.
ghost use Rattle.std.specs.Prelude.{◌≡◌};
ghost use Rattle.text.specs.Lines.{bounds_at};

use crate::field::next_at;

// Where a line's bytes end, and where the text goes on. The line feed stands between the two; a line that no line feed ends has
// both at the text's end.
#[derive(Clone, Copy)]
pub struct Bounds {
    pub end: usize,
    pub next: usize,
}

pub(crate) fn line_at(text: &[u8], at: usize) -> Bounds
    ensures { result ≡ bounds_at text.now at }
{
    if at < text.len() {
        let end = next_at(text, at, b'\n');
        if end < text.len() {
            return Bounds { end, next: end + 1 };
        }
    }
    Bounds {
        end: text.len(),
        next: text.len(),
    }
}
