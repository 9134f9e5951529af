// The entries of a good line in preorder, before their operands are known; a CALL has its REC, and the SCOPE has its operand.
ghost use Rattle.std.specs.Prelude.{◌+◌, ◌≤◌, length, Ok};
ghost use Rattle.words.specs.Words.{rows};
ghost use Rattle.rules.specs.Text.{rule_of};
ghost use Rattle.rules.specs.Condition.{found_of};
ghost use Rattle.rules.specs.Scan.{fields_from};
ghost use Rattle.translate.specs.Added.{Placed};
ghost use Rattle.translate.specs.Bare.{scope_put, bare_of, body_opened, condition_opened, call_put, build_put, bare_found, bare_body, its_conditions, Fits, PlacedIn};

use checks::kinds::{BUILD, CALL, MATCH, PCON, PVAR, SCOPE, SEQ, WHERE};
use rules::condition::Condition;
use rules::field::{Head, children, head_of};
use rules::rule_text::RuleText;
use text::field::next_at;
use words::put_row;

// Word 0 of an entry of each kind: 16 times the kind, and the number of its operands, which for a PCON is to be added.
const SEQ_HEAD: u32 = 16 * SEQ + 2;

const CALL_HEAD: u32 = 16 * CALL + 1;

const MATCH_HEAD: u32 = 16 * MATCH + 1;

const BUILD_HEAD: u32 = 16 * BUILD + 1;

const SCOPE_HEAD: u32 = 16 * SCOPE + 1;

const WHERE_HEAD: u32 = 16 * WHERE + 1;

const PVAR_HEAD: u32 = 16 * PVAR;

const PCON_HEAD: u32 = 16 * PCON;

// The entries of the term whose first field begins at `from`; the entry after them.
fn put_term(table: &mut [u32], line: &[u8], from: usize, first: u32) -> u32
    requires { (first + length (bare_of (fields_from line.now from) 1) ≤ rows table.old) × (length table.old ≤ 32768) }
    ensures { Placed table.old first (bare_of (fields_from line.now from) 1) table.new result }
{
    let mut wanted: usize = 1;
    let mut at = from;
    let mut e = first;
    while 0 < wanted {
        if line.len() < at {
            return e;
        }
        let end = next_at(line, at, 9);
        match head_of(&line[at..end]) {
            None => {
                return e;
            }
            Some(Head::Variable(v)) => {
                put_row(table, e, [PVAR_HEAD, v, 0, 0, 0, 0, 0, 0]);
                at = end + 1;
                e += 1;
                wanted -= 1;
            }
            Some(Head::Constructor(c)) => {
                at = end + 1;
                if line.len() < at {
                    return e;
                }
                let stop = next_at(line, at, 9);
                let Some(n) = children(&line[at..stop]) else {
                    return e;
                };
                put_row(table, e, [PCON_HEAD + n, c, 0, 0, 0, 0, 0, 0]);
                at = stop + 1;
                e += 1;
                wanted = wanted - 1 + (n as usize);
            }
        }
    }
    e
}

// The SCOPE of a rule's variables; the entry after it, which is its operand.
pub(crate) fn put_scope(table: &mut [u32], e: u32, mask: u64) -> u32
    requires { (e + 1 ≤ rows table.old) × (length table.old ≤ 32768) }
    ensures { Placed table.old e (scope_put e mask) table.new result }
{
    let low = (mask % 4294967296) as u32;
    let high = (mask / 4294967296) as u32;
    put_row(table, e, [SCOPE_HEAD, low, high, e + 1, 0, 0, 0, 0]);
    e + 1
}

// SEQ and MATCH: what stands before the left term.
fn open_body(table: &mut [u32], e: u32) -> u32
    requires { (e + 2 ≤ rows table.old) × (length table.old ≤ 32768) }
    ensures { Placed table.old e body_opened table.new result }
{
    put_row(table, e, [SEQ_HEAD, 0, 0, 0, 0, 0, 0, 0]);
    put_row(table, e + 1, [MATCH_HEAD, 0, 0, 0, 0, 0, 0, 0]);
    e + 2
}

// SEQ, WHERE, SEQ and BUILD: what stands before a condition's starting term.
fn open_condition(table: &mut [u32], e: u32) -> u32
    requires { (e + 4 ≤ rows table.old) × (length table.old ≤ 32768) }
    ensures { Placed table.old e condition_opened table.new result }
{
    put_row(table, e, [SEQ_HEAD, 0, 0, 0, 0, 0, 0, 0]);
    put_row(table, e + 1, [WHERE_HEAD, 0, 0, 0, 0, 0, 0, 0]);
    put_row(table, e + 2, [SEQ_HEAD, 0, 0, 0, 0, 0, 0, 0]);
    put_row(table, e + 3, [BUILD_HEAD, 0, 0, 0, 0, 0, 0, 0]);
    e + 4
}

// SEQ, CALL and MATCH: what stands before a condition's outcome.
fn put_call(table: &mut [u32], e: u32, x: u32) -> u32
    requires { (e + 3 ≤ rows table.old) × (length table.old ≤ 32768) }
    ensures { Placed table.old e (call_put x) table.new result }
{
    put_row(table, e, [SEQ_HEAD, 0, 0, 0, 0, 0, 0, 0]);
    put_row(table, e + 1, [CALL_HEAD, 0, x, 0, 0, 0, 0, 0]);
    put_row(table, e + 2, [MATCH_HEAD, 0, 0, 0, 0, 0, 0, 0]);
    e + 3
}

// BUILD: what stands before the right term.
fn put_build(table: &mut [u32], e: u32) -> u32
    requires { (e + 1 ≤ rows table.old) × (length table.old ≤ 32768) }
    ensures { Placed table.old e build_put table.new result }
{
    put_row(table, e, [BUILD_HEAD, 0, 0, 0, 0, 0, 0, 0]);
    e + 1
}

// The entries of a condition.
fn put_condition(table: &mut [u32], line: &[u8], c: Condition, first: u32) -> u32
    requires { (first + length (bare_found line.now (found_of (Ok c))) ≤ rows table.old) × (length table.old ≤ 32768) }
    ensures { Placed table.old first (bare_found line.now (found_of (Ok c))) table.new result }
{
    let start = open_condition(table, first);
    let call = put_term(table, line, c.start, start);
    let outcome = put_call(table, call, c.callee);
    put_term(table, line, c.outcome, outcome)
}

// The entries of all conditions of a rule's line.
fn put_conditions(table: &mut [u32], rule: &RuleText<'_>, first: u32) -> u32
    requires { Fits its_conditions rule.now.line.now rule.now.right rule.now.conditions first (rows table.old) × (length table.old ≤ 32768) }
    ensures { PlacedIn (rule_of rule.now.line.now) its_conditions table.old first table.new result }
{
    let mut e = first;
    for c in rule.conditions() {
        e = put_condition(table, rule.line, c, e);
    }
    e
}

// The entries of a rule's line that stand inside its scope; the entry after them.
pub(crate) fn put_body(table: &mut [u32], rule: &RuleText<'_>, first: u32) -> u32
    requires { Fits bare_body rule.now.line.now rule.now.right rule.now.conditions first (rows table.old) × (length table.old ≤ 32768) }
    ensures { PlacedIn (rule_of rule.now.line.now) bare_body table.old first table.new result }
{
    let left = open_body(table, first);
    let next = put_term(table, rule.line, 0, left);
    let build = put_conditions(table, rule, next);
    let last = put_build(table, build);
    put_term(table, rule.line, rule.right, last)
}
