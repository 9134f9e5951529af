// The fields of a term's entries.
ghost use Rattle.std.specs.Prelude.{[], ◌∷◌, ◌++◌, ◌+◌, ◌≤◌, length};
ghost use Rattle.text.specs.Text.{decimal};
ghost use Rattle.write_rules.specs.Lines.{Wrote, entry_text, Leaves, WritesTerm};

use checks::entries::{kind_of, operand_count};
use checks::kinds::PVAR;
use text::write::{put_byte, put_digits};
use words::word;

// The entry after those that were passed, and the place in the line after what was written.
#[derive(Clone, Copy)]
pub struct Passed {
    pub entry: u32,
    pub at: usize,
}

// A number and a tab.
pub(crate) fn write_number(line: &mut [u8], at: usize, n: u32) -> usize
    requires { at + 11 ≤ length line.old }
    ensures { Wrote line.old at (decimal n ++ (9 ∷ [])) line.new result }
{
    let end = put_digits(line, at, n);
    put_byte(line, end, b'\t')
}

// The fields of one entry of a term, each with a tab after it.
fn write_entry(table: &[u32], e: u32, line: &mut [u8], at: usize) -> usize
    requires { at + 24 ≤ length line.old }
    ensures { Wrote line.old at (entry_text table.now e) line.new result }
{
    let a = word(table, e, 1);
    if kind_of(table, e) == PVAR {
        let name = put_byte(line, at, b'v');
        return write_number(line, name, a);
    }
    let n = operand_count(table, e);
    let next = write_number(line, at, a);
    write_number(line, next, n)
}

// The fields of the term whose entries begin at `first`, written from a place on, while entries are in use and there is room.
pub(crate) fn write_term(
    table: &[u32],
    used: u32,
    first: u32,
    line: &mut [u8],
    from: usize,
) -> Passed
    requires { (used ≤ 4096) × (first ≤ 65536) × (from ≤ length line.old) }
    ensures { Leaves first (first + used) line.new result × WritesTerm table.now used first line.old from line.new result }
{
    let mut wanted: u32 = 1;
    let mut entry = first;
    let mut at = from;
    while 0 < wanted {
        if used <= entry {
            return Passed { entry, at };
        }
        if line.len() - at < 24 {
            return Passed { entry, at };
        }
        if kind_of(table, entry) < PVAR {
            return Passed { entry, at };
        }
        let n = operand_count(table, entry);
        at = write_entry(table, entry, line, at);
        wanted = wanted - 1 + n;
        entry += 1;
    }
    Passed { entry, at }
}
