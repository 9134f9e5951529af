// The shape of a line: is it a rule's text?
ghost use Rattle.std.specs.Prelude.{◌≡◌, IfOk};
ghost use Rattle.rules.specs.Text.{rule_of};
ghost use Rattle.rules.specs.Shape.{shape_of};
ghost use Rattle.rules.specs.Walk.{shape_told};

use crate::condition::condition_at;
use crate::rule_text::RuleText;
use crate::term::term_at;

// The shape of a line without its line feed, or its first bad field from 1, one past the last where none is bad.
pub fn shape_of(line: &[u8]) -> Result<RuleText<'_>, usize>
    ensures told { shape_told result ≡ shape_of (rule_of line.now) }
    ensures line { IfOk result (λ r. r.line ≡ line.entry) }
{
    let left = match term_at(line, 0) {
        Ok(term) => term,
        Err(good) => return Err(good + 1),
    };
    let right = match term_at(line, left.at) {
        Ok(term) => term,
        Err(good) => return Err(left.fields + good + 1),
    };
    let mut fields = left.fields + right.fields;
    let mut size = 4 + left.size + right.size;
    let mut at = right.at;
    while at <= line.len() {
        match condition_at(line, at) {
            Ok(c) => {
                fields += c.fields;
                size += 7 + c.size;
                at = c.next;
            }
            Err(good) => return Err(fields + good + 1),
        }
    }
    Ok(RuleText {
        line,
        field: fields + 1,
        size,
        right: left.at,
        conditions: right.at,
    })
}
