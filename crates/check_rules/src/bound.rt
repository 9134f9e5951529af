// The variables of a line that is a rule's: is each bound before it is used, and is each in range?
ghost use Rattle.std.specs.Prelude.{◌≡◌, ◌+◌};
ghost use Rattle.rules.specs.Text.{head_of, rule_of};
ghost use Rattle.rules.specs.Text as grammar;
ghost use Rattle.rules.specs.Scan.{fields_from};
ghost use Rattle.check_rules.specs.Bound.{marked_by, marks_from, LateIn};

use rules::field::{Head, head_of};
use rules::fields::Fields;
use rules::rule_text::RuleText;

// The mask with the bit of a variable, where it is in the window.
fn with_bit(mask: u64, base: u32, v: u32) -> u64
    ensures { result ≡ marked_by base mask (grammar.variable v) }
{
    match v.checked_sub(base) {
        Some(j) if j < 64 => mask | 1 << j,
        _ => mask,
    }
}

// The mask with the bit of a field's variable.
fn mark(mask: u64, base: u32, field: &[u8]) -> u64
    ensures { result ≡ marked_by base mask (head_of field.now) }
{
    match head_of(field) {
        Some(Head::Variable(v)) => with_bit(mask, base, v),
        _ => mask,
    }
}

// The variables of the window in the fields from one place up to another.
pub fn marks(line: &[u8], from: usize, to: usize, base: u32) -> u64
    ensures { result ≡ marks_from base (fields_from line.now from) from to 0 }
{
    let mut mask: u64 = 0;
    for field in Fields::between(line, from, to) {
        mask = mark(mask, base, field);
    }
    mask
}

// Whether a variable of the window is used before it is bound.
pub(crate) fn unbound(rule: &RuleText<'_>, base: u32) -> bool
    ensures { LateIn (rule_of rule.now.line.now) base result }
{
    let line = rule.line;
    let mut bound = marks(line, 0, rule.right, base);
    for c in rule.conditions() {
        let needed = marks(line, c.start, c.outcome, base);
        if needed & bound != needed {
            return true;
        }
        bound |= marks(line, c.outcome, c.next, base);
    }
    let last = marks(line, rule.right, rule.conditions, base);
    last & bound != last
}
