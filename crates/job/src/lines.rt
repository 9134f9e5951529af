// A line of a job: its name, whether its numbers fit, and the line that begins at a place.
ghost use Rattle.std.specs.Prelude.{◌≡◌, ◌||◌, ℕ, Some, ◌≤◌, ◌<◌, leb, eqb, length, get_or, drop};
ghost use mathlib.Core.List.{List, tail};
ghost use Rattle.std.proofs.Math.Option.{Option, some};
ghost use Rattle.text.specs.Text.{one_word, parts, in_front};
ghost use Rattle.text.specs.Held.{numbers_held};
ghost use Rattle.job.specs.Lines.{letter_of, name_of, job_fits, node_fits, binding_fits, fits as fitting, line_from, entry_numbers, line_held, line_of, taken_at};
ghost use Rattle.job.specs.Held.{name_number, named, line_taken, taken_of};

use crate::{Line, Name, Taken};
use checks::kinds::{SCOPE, VARIABLES};
use text::Numbers;
use text::field::{next_at, number, number_within, numbers};
use text::reader::line_from;

// The name of one letter.
#[tactic(auto, unfolding(crate::specs::Lines::letter_of))]
fn letter(b: u8) -> Option<Name>
    ensures { named result ≡ letter_of b }
{
    match b {
        b'e' => Some(Name::Entry),
        b'n' => Some(Name::Node),
        b'b' => Some(Name::Binding),
        _ => None,
    }
}

// The name that a field is.
fn name(field: &[u8]) -> Option<Name>
    ensures { named result ≡ name_of field.now }
{
    match field {
        [b] => letter(*b),
        [j, o, b] if *j == b'j' && *o == b'o' && *b == b'b' => Some(Name::Job),
        _ => None,
    }
}

// Units, start, subject and room.
#[tactic(auto, unfolding(crate::specs::Lines::job_fits))]
fn job_fits(n: Numbers) -> bool
    ensures { result ≡ job_fits n.count n.at }
{
    n.count == 4 && n.at[3] <= 1024
}

// Constructor and up to six children.
#[tactic(auto, unfolding(crate::specs::Lines::node_fits))]
fn node_fits(n: Numbers) -> bool
    ensures { result ≡ node_fits n.count n.at }
{
    1 <= n.count && n.count <= 7
}

// Variable and node.
#[tactic(auto, unfolding(crate::specs::Lines::binding_fits))]
fn binding_fits(n: Numbers) -> bool
    ensures { result ≡ binding_fits n.count n.at }
{
    n.count == 2 && (n.at[0] as usize) < VARIABLES && n.at[1] < 131072
}

// The numbers fit the name, which is not that of an `e` line.
#[tactic(auto, unfolding(crate::specs::Lines::fits))]
fn fits(name: Name, n: Numbers) -> bool
    requires { name_number name ≡ 1 → ⊥ }
    ensures { result ≡ fitting (name_number name) n.count n.at }
{
    match name {
        Name::Job => job_fits(n),
        Name::Entry => unreachable!(),
        Name::Node => node_fits(n),
        Name::Binding => binding_fits(n),
    }
}

// The argument is a scope's, or has one word.
fn argument_fits(kind: u32, argument: u64) -> bool
    ensures { result ≡ (eqb kind 16 || leb argument one_word) }
{
    kind == SCOPE || argument <= 4294967295
}

// The `e` line of a kind, an argument and at most six operands.
fn entry_line(kind: u32, argument: u64, operands: Numbers) -> Option<Line>
    ensures { (next : ℕ) (o : Option (List ℕ)) → Some operands ≡ numbers_held o → line_taken result next ≡ line_held (line_from 1 (in_front (some kind) (in_front (some argument) o))) next }
{
    if 6 < operands.count || 255 < kind || !argument_fits(kind, argument) {
        return None;
    }
    let r = operands.at;
    Some(Line {
        name: Name::Entry,
        numbers: Numbers {
            count: operands.count + 2,
            at: [
                kind,
                (argument % 4294967296) as u32,
                r[0],
                r[1],
                r[2],
                r[3],
                r[4],
                r[5],
            ],
        },
        high: (argument / 4294967296) as u32,
    })
}

// The `e` line whose fields stand from a tab, or the end, on.
fn entry_of(line: &[u8], end: usize) -> Option<Line>
    requires { (end ≤ length line.now) × (end < length line.now → get_or line.now end 0 ≡ 9) }
    ensures { (next : ℕ) → line_taken result next ≡ line_held (line_from 1 (entry_numbers (tail (parts 9 (drop end line.now))))) next }
{
    if line.len() <= end {
        return None;
    }
    let kind_end = next_at(line, end + 1, b'\t');
    let kind = number(&line[end + 1..kind_end])?;
    if line.len() <= kind_end {
        return None;
    }
    let argument_end = next_at(line, kind_end + 1, b'\t');
    let argument = number_within(&line[kind_end + 1..argument_end], 18446744073709551615)?;
    let operands = numbers(line, argument_end)?;
    entry_line(kind, argument, operands)
}

// The line of a line's bytes.
fn line_of(line: &[u8]) -> Option<Line>
    ensures { (next : ℕ) → line_taken result next ≡ line_held (line_of line.now) next }
{
    let end = next_at(line, 0, b'\t');
    let name = name(&line[..end])?;
    if name == Name::Entry {
        return entry_of(line, end);
    }
    let numbers = numbers(line, end)?;
    if !fits(name, numbers) {
        return None;
    }
    Some(Line {
        name,
        numbers,
        high: 0,
    })
}

// The line that begins at a place.
pub fn line_at(text: &[u8], at: usize) -> Taken
    ensures { taken_of result ≡ taken_at text.now at }
{
    let found = line_from(text, at);
    if found.end < found.next {
        return Taken {
            line: line_of(&text[at..found.end]),
            next: found.next,
        };
    }
    Taken {
        line: None,
        next: text.len(),
    }
}
