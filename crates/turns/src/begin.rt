// A visit begins: its turn is the plan of its rule, up to the first visit that it asks for.
ghost use Rattle.std.specs.Prelude.{◌≡◌, ◌⊎◌, ℕ, ◌+◌, ◌≤◌, List, length};
ghost use Rattle.checks.specs.Kinds.{ours};
ghost use Rattle.checks.specs.Good.{kind_of, mask_by};
ghost use Rattle.meaning.specs.Bindings.{Bindings};
ghost use Rattle.meaning.specs.Rules.{apply, match as met, build, compare};
ghost use Rattle.turns.specs.Ways.{record_from, held_at, visit_of, Fit, Ready};
ghost use Rattle.turns.specs.Turns.{Begins, Beside};

use crate::turn::{
    APPLY, Asked, BUILT, COMPARED, CONDITION, DENIED, EACH, EQUAL, EVERY, FIRST, LEFTMOST, MAKING,
    MATCHED, NONE_YET, PAIRS, PARTS, PASS, SCOPED, SECOND, STEP, TRIED, Turn, bound, few, visit,
};
use checks::kinds::{
    ALL, BUILD, CALL, CHOICE, CONG, ID, LEFT, MATCH, NOT, ONE, PATH, PCON, REC, SCOPE, SEQ, SOME,
    TEST, WHERE,
};
use words::word;

// A strategy begins.
fn strategy(table: &[u32], store: &[u32], x: u32, y: u32) -> Turn
    ensures { (c : Bindings ℕ) → Begins table.now store.now x y (apply x y c) c result }
{
    let one = word(table, x, 2);
    match word(table, x, 0) / 16 {
        ID => Turn::Done(y),
        TEST => Turn::Ask(visit(APPLY, TRIED, one, y)),
        NOT => Turn::Ask(visit(APPLY, DENIED, one, y)),
        SEQ => Turn::Ask(visit(APPLY, SECOND, one, y)),
        CHOICE => Turn::Ask(visit(APPLY, FIRST, one, y)),
        LEFT => Turn::Ask(visit(APPLY, FIRST, one, y)),
        REC => Turn::Ask(visit(APPLY, PASS, one, y)),
        CALL => Turn::Ask(visit(APPLY, PASS, one, y)),
        PATH => path(table, store, x, y),
        CONG => each(table, store, x, y),
        ALL => children(table, store, EVERY, x, y),
        ONE => children(table, store, LEFTMOST, x, y),
        SOME => children(table, store, NONE_YET, x, y),
        MATCH => Turn::Ask(visit(MATCHED, PASS, one, y)),
        BUILD => Turn::Ask(visit(BUILT, PASS, one, y)),
        SCOPE => scope(table, x, y),
        WHERE => Turn::Ask(visit(APPLY, CONDITION, one, y)),
        _ => Turn::Failed,
    }
}

// PATH begins.
fn path(table: &[u32], store: &[u32], x: u32, y: u32) -> Turn
    requires { kind_of table.now x ≡ 9 }
    ensures { (c : Bindings ℕ) → Begins table.now store.now x y (apply x y c) c result }
{
    let i = word(table, x, 1);
    if i == 0 || few(word(store, y, 1)) < i {
        return Turn::Failed;
    }
    Turn::Ask(Asked {
        at: i - 1,
        ..visit(APPLY, STEP, word(table, x, 2), word(store, y, 1 + i))
    })
}

// ALL, ONE or SOME begins.
fn children(table: &[u32], store: &[u32], what: u32, x: u32, y: u32) -> Turn
    requires { ((what ≡ 12) × (kind_of table.now x ≡ 11)) ⊎ (((what ≡ 8) × (kind_of table.now x ≡ 12)) ⊎ ((what ≡ 9) × (kind_of table.now x ≡ 13))) }
    ensures { (c : Bindings ℕ) → Begins table.now store.now x y (apply x y c) c result }
{
    if word(store, y, 1) != 0 {
        Turn::Ask(visit(APPLY, what, word(table, x, 2), word(store, y, 2)))
    } else if what == EVERY {
        Turn::Done(y)
    } else {
        Turn::Failed
    }
}

// Constructor and count are compared with those of the node y, and then the first child is asked for; else the visit is lost.
fn beside(store: &[u32], y: u32, constructor: u32, count: u32, lost: Turn, first: Asked) -> Turn
    ensures { Beside store.now y constructor count lost first result }
{
    let n = few(count);
    if constructor != word(store, y, 0) || n != few(word(store, y, 1)) {
        lost
    } else if n == 0 {
        Turn::Done(y)
    } else {
        Turn::Ask(first)
    }
}

// CONG begins.
fn each(table: &[u32], store: &[u32], x: u32, y: u32) -> Turn
    requires { kind_of table.now x ≡ 10 }
    ensures { (c : Bindings ℕ) → Begins table.now store.now x y (apply x y c) c result }
{
    let first = visit(APPLY, EACH, word(table, x, 2), word(store, y, 2));
    beside(
        store,
        y,
        word(table, x, 1),
        word(table, x, 0) % 16,
        Turn::Failed,
        first,
    )
}

// The mask of the SCOPE x: words 1 and 2, the low one first.
pub(crate) fn scope_mask(table: &[u32], x: u32) -> u64
    ensures { result ≡ mask_by ours table.now x }
{
    word(table, x, 1) as u64 + word(table, x, 2) as u64 * 4294967296
}

// SCOPE begins.
fn scope(table: &[u32], x: u32, y: u32) -> Turn
    requires { kind_of table.now x ≡ 16 }
    ensures { (w : List ℕ) (c : Bindings ℕ) → Begins table.now w x y (apply x y c) c result }
{
    Turn::Ask(Asked {
        mask: scope_mask(table, x),
        ..visit(APPLY, SCOPED, word(table, x, 3), y)
    })
}

// MATCH meets the pattern p.
fn matching(table: &[u32], store: &[u32], work: &[u32], mask: u64, p: u32, y: u32) -> Turn
    requires { record_from + 64 ≤ length work.now }
    ensures { Fit table.now p → Begins table.now store.now p y
        (met p y (held_at work.now record_from mask)) (held_at work.now record_from mask) result }
{
    if word(table, p, 0) / 16 == PCON {
        return constructor(table, store, p, y);
    }
    let v = word(table, p, 1) % 64;
    match bound(work, mask, v) {
        Some(node) => Turn::Ask(visit(COMPARED, EQUAL, node, y)),
        None => Turn::Bound {
            variable: v,
            node: y,
        },
    }
}

// A PCON met by MATCH.
fn constructor(table: &[u32], store: &[u32], p: u32, y: u32) -> Turn
    requires { kind_of table.now p ≡ 19 }
    ensures { (c : Bindings ℕ) → Begins table.now store.now p y (met p y c) c result }
{
    let first = visit(MATCHED, PARTS, word(table, p, 2), word(store, y, 2));
    beside(
        store,
        y,
        word(table, p, 1),
        word(table, p, 0) % 16,
        Turn::Missed(p),
        first,
    )
}

// BUILD meets the pattern p.
fn building(table: &[u32], work: &[u32], mask: u64, p: u32, y: u32) -> Turn
    requires { record_from + 64 ≤ length work.now }
    ensures { (w : List ℕ) → Fit table.now p → Begins table.now w p y
        (build p y (held_at work.now record_from mask)) (held_at work.now record_from mask) result }
{
    if word(table, p, 0) / 16 == PCON {
        if word(table, p, 0) % 16 == 0 {
            return Turn::Leaf(word(table, p, 1));
        }
        return Turn::Ask(visit(BUILT, MAKING, word(table, p, 2), y));
    }
    let v = word(table, p, 1) % 64;
    match bound(work, mask, v) {
        Some(node) => Turn::Done(node),
        None => Turn::Stuck(v),
    }
}

// A pair of nodes is compared.
fn pair(store: &[u32], x: u32, y: u32) -> Turn
    ensures { (t : List ℕ) (c : Bindings ℕ) → Begins t store.now x y (compare x y c) c result }
{
    let first = visit(COMPARED, PAIRS, word(store, x, 2), word(store, y, 2));
    beside(
        store,
        y,
        word(store, x, 0),
        word(store, x, 1),
        Turn::Failed,
        first,
    )
}

// A visit begins.
pub fn begin(
    table: &[u32],
    store: &[u32],
    work: &[u32],
    mask: u64,
    mode: u32,
    x: u32,
    y: u32,
) -> Turn
    requires { record_from + 64 ≤ length work.now }
    ensures { Ready table.now mode x
        → Begins table.now store.now x y (visit_of mode x y (held_at work.now record_from mask))
        (held_at work.now record_from mask) result }
{
    match mode {
        APPLY => strategy(table, store, x, y),
        MATCHED => matching(table, store, work, mask, x, y),
        BUILT => building(table, work, mask, x, y),
        _ => pair(store, x, y),
    }
}
