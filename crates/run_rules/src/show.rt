// The answer as text on standard output. Each function ends at the first write that fails.
ghost use Rattle.std.specs.Prelude.{◌≡◌, ◌≤◌, length, take};

use check_rules::check::{RulesRefusal, four_numbers};
use checks::entries::{kind_of, mask, operand_count};
use checks::kinds::{SCOPE, operands_from};
use std::io;
use std::io::Write;
use words::{row, word};
use write_rules::rule::write_rule;

// The argument of an entry: a SCOPE's is its mask of two words.
fn argument(table: &[u32], e: u32) -> u64 {
    if kind_of(table, e) == SCOPE {
        mask(table, e)
    } else {
        word(table, e, 1) as u64
    }
}

// The `e` line of an entry.
fn show_entry(out: &mut impl Write, table: &[u32], e: u32) -> io::Result<()> {
    let kind = kind_of(table, e);
    let from = operands_from(kind) as usize;
    let count = operand_count(table, e) as usize;
    let argument = argument(table, e);
    write!(out, "e\t{kind}\t{argument}")?;
    for operand in row(table, e).iter().skip(from).take(count) {
        write!(out, "\t{operand}")?;
    }
    out.write_all(b"\n")
}

// Puts the line of the rule that starts at an entry into a buffer: how many bytes it has, 0 where no rule starts there.
fn put_rule(table: &[u32], used: u32, e: u32, line: &mut [u8]) -> usize
    ensures { (result ≤ length line.new) × (result ≡ length (take result line.new)) }
{
    write_rule(table, used, e, line).unwrap_or(0)
}

// The line of the rule that starts at an entry, if one does. No rule's line is longer than the buffer.
fn show_rule(out: &mut impl Write, table: &[u32], used: u32, e: u32) -> io::Result<()> {
    let mut line = [0u8; 53272];
    let n = put_rule(table, used, e, &mut line);
    out.write_all(&line[..n])
}

// The `e` line of each entry in use, and then the lines of the rules that start in them: no other entry than a SCOPE starts one.
fn show_all(out: &mut impl Write, table: &[u32], used: u32) -> io::Result<()> {
    for e in 0..used {
        show_entry(out, table, e)?;
    }
    for e in 0..used {
        if kind_of(table, e) == SCOPE {
            show_rule(out, table, used, e)?;
        }
    }
    Ok(())
}

// The line `answer`, and where nothing is refused the entries in use and the rules that start in them. `used` is how many entries were in
// use before.
pub(crate) fn show_answer(
    out: &mut impl Write,
    table: &[u32],
    used: u32,
    told: Result<u32, RulesRefusal>,
) -> io::Result<()> {
    let [answer, line, field, all] = four_numbers(told, used);
    writeln!(out, "answer\t{answer}\t{line}\t{field}\t{all}")?;
    match told {
        Ok(all) => show_all(out, table, all),
        Err(_) => Ok(()),
    }
}
