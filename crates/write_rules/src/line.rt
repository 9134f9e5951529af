// The line of a rule's entries: its left term, its right term, which stands last in the entries, and its conditions.
ghost use Rattle.std.specs.Prelude.{◌+◌, ◌*◌, ◌≤◌, ◌<◌, length};
ghost use Rattle.write_rules.specs.Lines.{Leaves, WritesCondition, WritesConditions, HasLine};

use crate::term::{Passed, write_number, write_term};
use checks::entries::kind_of;
use checks::kinds::SEQ;
use words::word;

// The fields of one condition. Its number stands before its starting term in the line and after it in the entries, so that the term
// is passed once before it is written in its place.
// As it is: a place in the line is an argument and no cursor's state, for a condition and a rule are each written twice from one place, and
// a cursor would have to be set back.
fn write_condition(table: &[u32], used: u32, first: u32, line: &mut [u8], from: usize) -> Passed
    requires { (used ≤ 4096) × (first ≤ 4096) × (from ≤ length line.old) }
    ensures { Leaves (first + 4) (first + 7 + 2 * used) line.new result × WritesCondition table.now used first line.old from line.new result }
{
    let passed = write_term(table, used, first + 4, line, from);
    let callee = word(table, passed.entry + 1, 2);
    if line.len() - from < 24 {
        return Passed { at: from, ..passed };
    }
    let at = write_number(line, from, callee);
    let start = write_term(table, used, first + 4, line, at);
    write_term(table, used, start.entry + 3, line, start.at)
}

// The fields of all conditions from an entry on.
fn write_conditions(table: &[u32], used: u32, first: u32, line: &mut [u8], from: usize) -> Passed
    requires { (used ≤ 4096) × (first ≤ 16384) × (from ≤ length line.old) }
    ensures { Leaves first (first + 7 + 3 * used) line.new result × WritesConditions table.now used first line.old from line.new result }
{
    let mut entry = first;
    let mut at = from;
    while entry < used {
        if kind_of(table, entry) != SEQ {
            return Passed { entry, at };
        }
        let c = write_condition(table, used, entry, line, at);
        entry = c.entry;
        at = c.at;
    }
    Passed { entry, at }
}

// The fields of a rule, each with a tab after it; how many bytes they are. Of entries that are no rule's nothing is known.
pub(crate) fn write_line(table: &[u32], used: u32, first: u32, line: &mut [u8]) -> usize
    requires { (used ≤ 4096) × (first < used) × (53272 ≤ length line.old) }
    ensures { (result ≤ length line.new) × HasLine table.now used first line.new result }
{
    let left = write_term(table, used, first + 3, line, 0);
    let build = write_conditions(table, used, left.entry, line, left.at);
    let right = write_term(table, used, build.entry + 1, line, left.at);
    let all = write_conditions(table, used, left.entry, line, right.at);
    all.at
}
