// A line of the text: is it a rule's, and one that may be taken? Nothing is written.
ghost use Rattle.std.specs.Prelude.{◌≡◌};
ghost use Rattle.rules.specs.Text.{rule_of};
ghost use Rattle.check_rules.specs.Line.{line_fault_number, fault_field, callable as callableBy, CallsIn, verdict_of, line_told, line_made, line_of};

use crate::variables::check_variables;
use checks::entries::kind_of;
use checks::kinds::REC;
use rules::rule_text::RuleText;
use rules::shape::shape_of;

// What is wrong with a line, the first in this order.
#[derive(Clone, Copy, PartialEq, Eq)]
pub enum LineFault {
    // It is no rule's text: its first bad field from 1, one past the last where none is bad.
    Shape(usize),
    // A variable is used before it is bound.
    Unbound,
    // A variable is out of range.
    Range,
    // A condition's number is not that of a REC in use without free variables.
    Callee,
    // Its entries have no room in the table.
    Room,
}

impl LineFault {
    // Its number in the documents.
    pub fn answer(self) -> u32
        ensures { result ≡ line_fault_number self }
    {
        match self {
            LineFault::Shape(_) => 18,
            LineFault::Unbound => 19,
            LineFault::Range => 20,
            LineFault::Callee => 22,
            LineFault::Room => 23,
        }
    }

    // The field that it is about, or 0.
    pub fn field(self) -> usize
        ensures { result ≡ fault_field self }
    {
        match self {
            LineFault::Shape(field) => field,
            _ => 0,
        }
    }
}

// What was measured of a line: its first bad field from 1, one past the last where none is bad; its rule's entries, 0 where it is no rule's text.
#[derive(Clone, Copy, PartialEq, Eq)]
pub struct Measure {
    pub field: usize,
    pub size: usize,
}

// A line that may not be taken: what is wrong with it, and what was measured of it.
#[derive(Clone, Copy, PartialEq, Eq)]
pub struct Unfit {
    pub fault: LineFault,
    pub measure: Measure,
}

// Entry x of those in use is a REC without free variables.
#[tactic(auto, unfolding(crate::specs::Line::callable))]
fn callable(table: &[u32], masks: &[u64], used: u32, x: u32) -> bool
    ensures { result ≡ callableBy table.now masks.now used x }
{
    x < used && kind_of(table, x) == REC && masks.get(x as usize).copied().unwrap_or(0) == 0
}

// Every condition's number is such an entry's.
fn calls(rule: &RuleText<'_>, table: &[u32], masks: &[u64], used: u32) -> bool
    ensures { CallsIn (rule_of rule.now.line.now) (callableBy table.now masks.now used) result }
{
    for c in rule.conditions() {
        if !callable(table, masks, used, c.callee) {
            return false;
        }
    }
    true
}

// What a line without its line feed measures where it may be taken, or what is wrong with it.
pub fn check_line(line: &[u8], table: &[u32], masks: &[u64], used: u32) -> Result<Measure, Unfit>
    ensures told { line_told (line_of (callableBy table.now masks.now used) (rule_of line.now)) (verdict_of result) }
    ensures made { line_made result ≡ line_of (callableBy table.now masks.now used) (rule_of line.now) }
{
    let rule = match shape_of(line) {
        Ok(rule) => rule,
        Err(field) => {
            return Err(Unfit {
                fault: LineFault::Shape(field),
                measure: Measure { field, size: 0 },
            });
        }
    };
    let measure = Measure {
        field: rule.field,
        size: rule.size,
    };
    if let Err(fault) = check_variables(&rule) {
        return Err(Unfit { fault, measure });
    }
    if !calls(&rule, table, masks, used) {
        return Err(Unfit {
            fault: LineFault::Callee,
            measure,
        });
    }
    Ok(measure)
}
