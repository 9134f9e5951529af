// One term of a line, in prefix form: no stack, only the number of terms still wanted.
ghost use Rattle.std.specs.Prelude.{◌≡◌};
ghost use Rattle.rules.specs.Scan.{scanned, term_told, fields_from};

use crate::field::{Head, children, head_of};
use text::field::next_at;

// Where the field after a term begins, one past the line's end where there is none; how many fields it has; its entries.
#[derive(Clone, Copy)]
pub struct Term {
    pub at: usize,
    pub fields: usize,
    pub size: usize,
}

// The term whose first field begins at `from`, or how many of its fields were good.
pub(crate) fn term_at(line: &[u8], from: usize) -> Result<Term, usize>
    ensures { result ≡ term_told (scanned (fields_from line.now from) 1 from 0 0) }
{
    let mut wanted: usize = 1;
    let mut at = from;
    let mut fields: usize = 0;
    let mut size: usize = 0;
    while 0 < wanted {
        if line.len() < at {
            return Err(fields);
        }
        let end = next_at(line, at, 9);
        match head_of(&line[at..end]) {
            None => {
                return Err(fields);
            }
            Some(Head::Variable(_)) => {
                at = end + 1;
                fields += 1;
                size += 1;
                wanted -= 1;
            }
            Some(Head::Constructor(_)) => {
                at = end + 1;
                fields += 1;
                if line.len() < at {
                    return Err(fields);
                }
                let stop = next_at(line, at, 9);
                let Some(n) = children(&line[at..stop]) else {
                    return Err(fields);
                };
                at = stop + 1;
                fields += 1;
                size += 1;
                wanted = wanted - 1 + (n as usize);
            }
        }
    }
    Ok(Term { at, fields, size })
}
