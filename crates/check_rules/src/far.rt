// Variables out of range, of which a line may have as many as it has fields: is each bound before it is used? A pass over the line
// asks it of the variables from `low` on. Those that the line binds go into a tree; where it is full, its greater half goes out,
// and the pass asks only of the variables below. The next pass goes on from there.
ghost use Rattle.std.specs.Prelude.{◌≤◌, ◌<◌};
ghost use Rattle.rules.specs.Text.{head_of, rule_of};
ghost use Rattle.rules.specs.Scan.{fields_from};
ghost use Rattle.variable_tree.specs.Tree.{KeepsOrOf};
ghost use Rattle.check_rules.specs.Line.{line_fault_number};
ghost use Rattle.check_rules.specs.Far.{is_variable, occurs_from, EarlyIn, settled_of, SettlesIn, FarIn};

use crate::bound::unbound;
use crate::line::LineFault;
use checks::kinds::VARIABLES;
use rules::field::{Head, head_of};
use rules::fields::Fields;
use rules::rule_text::RuleText;
use variable_tree::{LINKS, NODES, Tree};

// One more than the greatest number of a variable.
const NUMBERS: usize = 4294967296;

// A field's variable, where it is asked for, into the tree. Those below the returned number are still asked for.
fn bind(field: &[u8], low: usize, below: usize, tree: &mut Tree) -> usize
    ensures { (result ≤ below) × KeepsOrOf tree.old.keys (λ v. is_variable v (head_of field.now)) tree.new.keys }
{
    match head_of(field) {
        Some(Head::Variable(v)) if (low..below).contains(&(v as usize)) => tree.add(below, v),
        _ => below,
    }
}

// The same for the fields from one place up to another.
fn bind_all(line: &[u8], from: usize, to: usize, low: usize, below: usize, tree: &mut Tree) -> usize
    ensures { (result ≤ below)
        × KeepsOrOf tree.old.keys (λ v. occurs_from v (fields_from line.now from) from to) tree.new.keys }
{
    let mut left = below;
    for field in Fields::between(line, from, to) {
        left = bind(field, low, left, tree);
    }
    left
}

// Whether a field's variable is used too early. One that is not in the tree is looked for in the line.
fn early(rule: &RuleText<'_>, field: &[u8], low: usize, below: usize, tree: &Tree) -> bool
    ensures { EarlyIn (rule_of rule.now.line.now) low below tree.now.keys (λ v. is_variable v (head_of field.now)) result }
{
    match head_of(field) {
        Some(Head::Variable(v)) => {
            (low..below).contains(&(v as usize)) && !tree.holds(v) && unbound(rule, v)
        }
        _ => false,
    }
}

// The same for the fields from one place up to another.
fn any_early(
    rule: &RuleText<'_>,
    from: usize,
    to: usize,
    low: usize,
    below: usize,
    tree: &Tree,
) -> bool
    ensures { EarlyIn (rule_of rule.now.line.now) low below tree.now.keys
        (λ v. occurs_from v (fields_from rule.now.line.now from) from to) result }
{
    for field in Fields::between(rule.line, from, to) {
        if early(rule, field, low, below, tree) {
            return true;
        }
    }
    false
}

// One pass over the line, in the order of the run: below which number no variable is used too early, or nothing where one is.
fn pass(rule: &RuleText<'_>, low: usize) -> Option<usize>
    requires { 0 < low }
    ensures { SettlesIn (rule_of rule.now.line.now) low (settled_of result) }
{
    let line = rule.line;
    let mut tree = Tree {
        keys: [0; NODES],
        links: [0; LINKS],
    };
    let mut below = bind_all(line, 0, rule.right, low, NUMBERS, &mut tree);
    for c in rule.conditions() {
        if any_early(rule, c.start, c.outcome, low, below, &tree) {
            return None;
        }
        below = bind_all(line, c.outcome, c.next, low, below, &mut tree);
    }
    if any_early(rule, rule.right, rule.conditions, low, below, &tree) {
        return None;
    }
    Some(below)
}

// Whether a variable out of range is used too early, or is the fault that it is out of range. The first pass stands by itself, so that the tree takes stack only
// where a line has such a variable.
pub(crate) fn far_fault(rule: &RuleText<'_>) -> LineFault
    ensures { FarIn (rule_of rule.now.line.now) (line_fault_number result) }
{
    let Some(first) = pass(rule, VARIABLES) else {
        return LineFault::Unbound;
    };
    let mut low = VARIABLES.max(first);
    while low < NUMBERS {
        let Some(below) = pass(rule, low) else {
            return LineFault::Unbound;
        };
        if low < below {
            low = below;
        } else if unbound(rule, low as u32) {
            return LineFault::Unbound;
        } else {
            low += 1;
        }
    }
    LineFault::Range
}
