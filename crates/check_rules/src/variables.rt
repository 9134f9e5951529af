// The variables of a line that is a rule's: is each bound before it is used, and is each in range?
ghost use Rattle.std.specs.Prelude.{◌≡◌};
ghost use Rattle.rules.specs.Text.{head_of, rule_of};
ghost use Rattle.rules.specs.Scan.{fields_from};
ghost use Rattle.check_rules.specs.Bound.{answers_variables};
ghost use Rattle.check_rules.specs.Line.{variables_told};
ghost use Rattle.check_rules.specs.Far.{outside_range, any_outside};

use crate::bound::unbound;
use crate::far::far_fault;
use crate::line::LineFault;
use checks::kinds::VARIABLES;
use rules::field::{Head, head_of};
use rules::fields::Fields;
use rules::rule_text::RuleText;

// Whether a field's variable is out of range.
fn outside(field: &[u8]) -> bool
    ensures { result ≡ outside_range (head_of field.now) }
{
    match head_of(field) {
        Some(Head::Variable(v)) => VARIABLES <= (v as usize),
        _ => false,
    }
}

// Whether a variable of the line is.

fn any_outside(line: &[u8]) -> bool
    ensures { result ≡ any_outside (fields_from line.now 0) }
{
    Fields::between(line, 0, line.len() + 1).any(|field| outside(field))
}

// Each variable is bound before it is used, and then each is in range. A line with a variable out of range is refused in any case, and
// only such a line is gone through by `far_fault`.
pub(crate) fn check_variables(rule: &RuleText<'_>) -> Result<(), LineFault>
    ensures { answers_variables (rule_of rule.now.line.now) (variables_told result) }
{
    if unbound(rule, 0) {
        return Err(LineFault::Unbound);
    }
    if any_outside(rule.line) {
        return Err(far_fault(rule));
    }
    Ok(())
}
