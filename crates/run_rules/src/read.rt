// The `e` lines that a text begins with.
ghost use Rattle.std.specs.Prelude.{◌≡◌, ◌≤◌, length};

use job::Name;
use job::lines::line_at;
use words::put_row;

// How many entries there are, and where the text goes on with rules.
#[derive(Clone, Copy)]
pub struct Base {
    pub used: u32,
    pub rules: usize,
}

// Puts the entries of the first lines into a table of 4,096, up to the first line that is no `e` line. With a full table all that follows
// counts as rules.
pub(crate) fn read_entries(text: &[u8], table: &mut [u32]) -> Base
    requires { length table.old ≡ 32768 }
    ensures { result.rules ≤ length text.now }
{
    let mut at: usize = 0;
    for used in 0..4096 {
        let taken = line_at(text, at);
        let Some(line) = taken.line else {
            return Base { used, rules: at };
        };
        if line.name != Name::Entry {
            return Base { used, rules: at };
        }
        put_row(table, used, line.entry_row());
        at = taken.next;
    }
    Base {
        used: 4096,
        rules: at,
    }
}
