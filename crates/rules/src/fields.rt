// The fields of a line, one after the other.
ghost use Rattle.std.specs.Prelude.{◌≡◌};

use text::field::next_at;

// The fields that begin from a place on, and before another.
#[derive(Clone, Copy, Drop)]
pub struct Fields<'a> {
    line: &'a [u8],
    at: usize,
    to: usize,
}

impl<'a> Fields<'a> {
    ghost use Rattle.rules.specs.Scan.{fields_from};
    ghost use Rattle.rules.specs.Walk.{begun, fields_left};

    pub fn between(line: &'a [u8], from: usize, to: usize) -> Fields<'a>
        ensures { fields_left result ≡ begun (fields_from line.now from) from to }
    {
        Fields { line, at: from, to }
    }
}

impl<'a> Iterator for Fields<'a> {
    ghost use Rattle.std.specs.Iterator.{YieldsFirstRef, item_count};
    ghost use Rattle.rules.specs.Walk.{fields_left};

    type Item = &'a [u8];

    ghost next_gives = { YieldsFirstRef fields_left };

    ghost remaining = { item_count fields_left };

    fn next(&mut self) -> Option<&'a [u8]> {
        let line = self.line;
        if self.to <= self.at || line.len() < self.at {
            return None;
        }
        let end = next_at(line, self.at, b'\t');
        let field = &line[self.at..end];
        self.at = end + 1;
        Some(field)
    }
}
