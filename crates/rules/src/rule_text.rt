// A line that is known to be a rule's text.
ghost use Rattle.std.specs.Prelude.{◌≡◌, true};
ghost use Rattle.rules.specs.Text.{rule_of};
ghost use Rattle.rules.specs.Shape.{shape_of};

use crate::condition::Conditions;

// A line that is a rule's text: how many fields it has, and one; the rule's entries; where its right term and its conditions begin.
#[derive(Clone, Copy)]
pub struct RuleText<'a> {
    pub line: &'a [u8],
    pub field: usize,
    pub size: usize,
    pub right: usize,
    pub conditions: usize,
    pub ghost good: { (shape_of (rule_of line.now)).good ≡ true },
    pub ghost right_there: { right ≡ (shape_of (rule_of line.now)).right },
    pub ghost conditions_there: { conditions ≡ (shape_of (rule_of line.now)).conditions },
}

impl<'a> RuleText<'a> {
    // Its conditions, one after the other.
    pub fn conditions(&self) -> Conditions<'a>
        ensures { (result.line ≡ self.now.line) × (result.at ≡ self.now.conditions) }
    {
        Conditions {
            line: self.line,
            at: self.conditions,
        }
    }
}
