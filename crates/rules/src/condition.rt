// A condition of a line: the number of an entry and two terms.
ghost use Rattle.std.specs.Prelude.{◌≡◌, ◌≤◌, length};
ghost use Rattle.rules.specs.Condition.{found_of, ConditionAt};

use crate::term::term_at;
use text::field::{next_at, number};

// The entry's number; where the starting term, the outcome and the field after it begin; how many fields it has; the entries of both terms.
#[derive(Clone, Copy)]
pub struct Condition {
    pub callee: u32,
    pub start: usize,
    pub outcome: usize,
    pub next: usize,
    pub fields: usize,
    pub size: usize,
}

// The condition whose number begins at `from`, or how many of its fields were good.
pub fn condition_at(line: &[u8], from: usize) -> Result<Condition, usize>
    requires { from ≤ length line.now }
    ensures { ConditionAt line.now from (found_of result) }
{
    let end = next_at(line, from, 9);
    let Some(callee) = number(&line[from..end]) else {
        return Err(0);
    };
    let start = match term_at(line, end + 1) {
        Ok(term) => term,
        Err(good) => return Err(1 + good),
    };
    let outcome = match term_at(line, start.at) {
        Ok(term) => term,
        Err(good) => return Err(1 + start.fields + good),
    };
    Ok(Condition {
        callee,
        start: end + 1,
        outcome: start.at,
        next: outcome.at,
        fields: 1 + start.fields + outcome.fields,
        size: start.size + outcome.size,
    })
}

// The conditions of a line, from the one that begins at a place up to the line's end, or up to fields that are none.
#[derive(Clone, Copy, Drop)]
pub struct Conditions<'a> {
    pub line: &'a [u8],
    pub at: usize,
}

impl<'a> Iterator for Conditions<'a> {
    ghost use Rattle.rules.specs.Walk.{GivesCondition, conditions_left};

    type Item = Condition;

    ghost next_gives = { GivesCondition };

    ghost remaining = { conditions_left };

    fn next(&mut self) -> Option<Condition> {
        if self.line.len() < self.at {
            return None;
        }
        let c = condition_at(self.line, self.at).ok()?;
        self.at = c.next;
        Some(c)
    }
}
