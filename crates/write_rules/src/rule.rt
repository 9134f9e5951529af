// A rule of a table, written as the line that the translator would take it from: a line is made from the entries, and the translator's
// own functions say whether that line gives these entries.
ghost use Rattle.std.specs.Prelude.{◌≡◌, ◌∷◌, ◌++◌, ◌+◌, ◌*◌, ◌≤◌, ◌<◌, length, get_or, drop};
ghost use Rattle.check_rules.specs.Answer.{used_checked};
ghost use Rattle.write_rules.specs.Written.{RuleWritten, written_of, three_of};
ghost use Rattle.write_rules.specs.declared.rule.WriteRefusal.TheVariants.{Table};
ghost use Rattle.write_rules.specs.Lines.{taken_of, HasLine, SameWords, IsRule};

use crate::line::write_line;
use check_rules::answer::{check_used, fill_masks};
use check_rules::line::{Measure, Unfit, check_line};
use checks::refusal::Refusal;
use translate::lines::put_line;

// Why no line is written.
#[derive(Clone, Copy, PartialEq, Eq)]
pub enum WriteRefusal {
    // The entries in use.
    Table(Refusal),
    // No rule starts at the entry.
    NoRule,
    // The buffer is too short.
    Short,
}

impl From<Refusal> for WriteRefusal {
    ghost from_gives = { λ r e. e ≡ Table r };

    fn from(r: Refusal) -> WriteRefusal {
        WriteRefusal::Table(r)
    }
}

// Answer, place and length: what a writing comes to.
pub fn three_numbers(r: Result<usize, WriteRefusal>) -> [u64; 3]
    ensures { result ≡ three_of (written_of r) }
{
    match r {
        Ok(n) => [0, 0, n as u64],
        Err(WriteRefusal::Table(e)) => [e.answer() as u64, e.place() as u64, 0],
        Err(WriteRefusal::NoRule) => [5, 0, 0],
        Err(WriteRefusal::Short) => [26, 0, 0],
    }
}

// A word; 0 outside.
fn at(words: &[u32], i: usize) -> u32
    ensures { result ≡ get_or words.now i 0 }
{
    words.get(i).copied().unwrap_or(0)
}

// Whether the words from one place to another are the same in both.
fn same_words(a: &[u32], b: &[u32], from: usize, to: usize) -> bool
    ensures { SameWords a.now b.now from to result }
{
    (from..to).all(|i| at(a, i) == at(b, i))
}

// How many entries a line takes, where it may be taken.
fn taken(line: Result<Measure, Unfit>) -> Option<usize>
    ensures { result ≡ taken_of line }
{
    match line {
        Ok(measure) => Some(measure.size),
        Err(_) => None,
    }
}

// Whether the line is that of the rule whose entries begin at an entry in use.
fn is_rule(table: &[u32], used: u32, entry: u32, line: &[u8]) -> bool
    requires { ((used_checked table.now used).answer ≡ 0) × (entry < used) }
    ensures { IsRule table.now used entry line.now result }
{
    let mut masks = [0u64; 4096];
    fill_masks(table, used, &mut masks);
    let Some(size) = taken(check_line(line, table, &masks, used)) else {
        return false;
    };
    if ((used - entry) as usize) < size {
        return false;
    }
    let mut made = [0u32; 32768];
    let mut ends = [0u32; 4096];
    let stop = put_line(&mut made, &mut ends, line, entry);
    same_words(table, &made, 8 * (entry as usize), 8 * (stop as usize))
}

// A line and its line feed at the start of a buffer.
fn copy_line(buffer: &mut [u8], line: &[u8])
    requires { length line.now < length buffer.old }
    ensures { buffer.new ≡ line.now ++ (10 ∷ drop (length line.now + 1) buffer.old) }
{
    let n = line.len();
    buffer[..n].copy_from_slice(line);
    buffer[n] = b'\n';
}

// What is answered to a line that was made from the entries: it is the rule's, or there is none.
fn write_out(
    table: &[u32],
    used: u32,
    entry: u32,
    line: &[u8],
    n: usize,
    buffer: &mut [u8],
) -> Result<usize, WriteRefusal>
    requires { ((used_checked table.now used).answer ≡ 0) × (entry < used) × (n ≤ length line.now) × HasLine table.now used entry line.now n }
    ensures { RuleWritten table.now used entry buffer.old (written_of result) buffer.new }
{
    if n == 0 {
        return Err(WriteRefusal::NoRule);
    }
    let end = n - 1;
    if !is_rule(table, used, entry, &line[..end]) {
        return Err(WriteRefusal::NoRule);
    }
    if buffer.len() < n {
        return Err(WriteRefusal::Short);
    }
    copy_line(buffer, &line[..end]);
    Ok(n)
}

// The rule whose entries begin at an entry of a table, whose first `used` entries are in use, as a line in the buffer.
pub fn write_rule(
    table: &[u32],
    used: u32,
    entry: u32,
    buffer: &mut [u8],
) -> Result<usize, WriteRefusal>
    ensures { RuleWritten table.now used entry buffer.old (written_of result) buffer.new }
{
    check_used(table, used)?;
    if used <= entry {
        return Err(WriteRefusal::NoRule);
    }
    let mut line = [0u8; 53272];
    let n = write_line(table, used, entry, &mut line);
    write_out(table, used, entry, &line, n, buffer)
}
