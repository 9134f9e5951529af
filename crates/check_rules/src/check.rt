// The lines of a text one after the other: the first bad one, or how many entries its rules take. Nothing is written.
ghost use Rattle.std.specs.Prelude.{◌≡◌, ◌*◌, ◌≤◌, length};
ghost use Rattle.words.specs.Words.{rows};
ghost use Rattle.text.specs.Text.{parts};
ghost use Rattle.check_rules.specs.Line.{callable};
ghost use Rattle.rules.specs.Text.{rule_of};
ghost use Rattle.rules.specs.Shape.{shape_of};
ghost use Rattle.check_rules.specs.declared.check.RulesRefusal.TheVariants.{Table};
ghost use Rattle.check_rules.specs.Check.{told_of, text_checked, refusal_numbers};

use crate::line::{LineFault, check_line};
use checks::refusal::Refusal;
use rules::shape::shape_of;
use text::reader::line_from;

// Why a text of rules is refused: the entries in use, or its first bad line, counted from 1.
#[derive(Clone, Copy, PartialEq, Eq)]
pub enum RulesRefusal {
    Table(Refusal),
    Line(u32, LineFault),
}

impl From<Refusal> for RulesRefusal {
    ghost from_gives = { λ r e. e ≡ Table r };

    fn from(r: Refusal) -> RulesRefusal {
        RulesRefusal::Table(r)
    }
}

// Answer, line or entry, field, and the entries in use: what a translation comes to, over a table with `used` entries in use.
pub fn four_numbers(r: Result<u32, RulesRefusal>, used: u32) -> [u64; 4]
    ensures { result ≡ refusal_numbers (told_of r used) }
{
    match r {
        Ok(all) => [0, 0, 0, all as u64],
        Err(RulesRefusal::Table(e)) => [e.answer() as u64, e.place() as u64, 0, used as u64],
        Err(RulesRefusal::Line(n, fault)) => [
            fault.answer() as u64,
            n as u64,
            fault.field() as u64,
            used as u64,
        ],
    }
}

// The first bad field of a line, one past the last where none is bad.
fn first_bad_field(line: &[u8]) -> usize
    ensures { result ≡ (shape_of (rule_of line.now)).field }
{
    match shape_of(line) {
        Ok(shape) => shape.field,
        Err(field) => field,
    }
}

// The entries in use with the rules of a text, over a table whose first `used` entries are in use.
pub(crate) fn check_text(
    table: &[u32],
    masks: &[u64],
    used: u32,
    text: &[u8],
) -> Result<u32, RulesRefusal>
    requires { (length table.now ≤ 32768) × (used ≤ rows table.now) }
    ensures { told_of result used ≡ text_checked (callable table.now masks.now used) (rows table.now) used 1 used (parts 10 text.now) }
{
    let room = table.len() / 8;
    let mut e = used as usize;
    let mut n: u32 = 1;
    let mut at: usize = 0;
    while at < text.len() {
        let b = line_from(text, at);
        let line = &text[at..b.end];
        if b.next <= b.end {
            return Err(RulesRefusal::Line(n, LineFault::Shape(first_bad_field(line))));
        }
        let size = match check_line(line, table, masks, used) {
            Ok(measure) => measure.size,
            Err(unfit) => return Err(RulesRefusal::Line(n, unfit.fault)),
        };
        if room - e < size {
            return Err(RulesRefusal::Line(n, LineFault::Room));
        }
        e += size;
        n += 1;
        at = b.next;
    }
    Ok(e as u32)
}
