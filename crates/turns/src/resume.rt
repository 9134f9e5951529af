// A visit that was asked for has ended: the frame that waits for it goes on, by its own words and the table.
ghost use Rattle.std.specs.Prelude.{◌≡◌, ℕ, ◌+◌, ◌≤◌, ◌<◌, length};
ghost use Rattle.turns.specs.Ways.{Frame};
ghost use Rattle.turns.specs.Turns.{OfHead, OfSeen, Resumes, Recovers, Walks};

use crate::begin::scope_mask;
use crate::turn::{
    APPLY, BUILT, COMPARED, CONDITION, DENIED, EACH, EQUAL, EVERY, FIRST, MAKING, MATCHED,
    NONE_YET, ONE_HAS, PAIRS, PARTS, PASS, SCOPED, SECOND, TRIED, Turn, visit,
};
use words::word;

// A frame's head: what it waits for, its entry or first node, its node.
#[derive(Clone, Copy)]
pub struct Head {
    pub what: u32,
    pub x: u32,
    pub y: u32,
}

// Its row, seen at the child that it is at: how many children there are, the next one, and what the other row has beside it.
#[derive(Clone, Copy)]
pub struct Seen {
    pub at: u32,
    pub count: u32,
    pub next: u32,
    pub mate: u32,
}

// The visit that a frame without a row waits for has succeeded with the node y.
pub fn succeeded(table: &[u32], h: Head, y: u32) -> Turn
    requires { h.what < 8 }
    ensures { (f : Frame) → OfHead f h → Resumes table.now f y result }
{
    match h.what {
        SECOND => Turn::Ask(visit(APPLY, PASS, word(table, h.x, 3), y)),
        CONDITION => Turn::Done(h.y),
        TRIED => Turn::Done(h.y),
        DENIED => Turn::Failed,
        SCOPED => Turn::Unscope {
            node: y,
            mask: scope_mask(table, h.x),
        },
        _ => Turn::Done(y),
    }
}

// It has failed.
pub fn failed(table: &[u32], h: Head) -> Turn
    requires { h.what < 8 }
    ensures { (f : Frame) → OfHead f h → Recovers table.now f result }
{
    match h.what {
        EQUAL => Turn::Missed(h.x),
        DENIED => Turn::Done(h.y),
        FIRST => Turn::Ask(visit(APPLY, PASS, word(table, h.x, 3), h.y)),
        _ => Turn::Failed,
    }
}

// There is a next child.
fn walk_on(table: &[u32], h: Head, s: Seen) -> Turn
    requires { (7 < h.what) × (s.at + 1 < s.count) × (s.count ≤ 6) }
    ensures { (f : Frame) (y : ℕ) → OfHead f h → OfSeen f s → Walks table.now f y result }
{
    let same = word(table, h.x, 2);
    let beside = word(table, h.x, 3 + s.at);
    match h.what {
        NONE_YET => Turn::Next(visit(APPLY, ONE_HAS, same, s.next)),
        ONE_HAS => Turn::Next(visit(APPLY, ONE_HAS, same, s.next)),
        EVERY => Turn::Next(visit(APPLY, EVERY, same, s.next)),
        EACH => Turn::Next(visit(APPLY, EACH, beside, s.next)),
        PARTS => Turn::Next(visit(MATCHED, PARTS, beside, s.next)),
        MAKING => Turn::Next(visit(BUILT, MAKING, beside, h.y)),
        PAIRS => Turn::Next(visit(COMPARED, PAIRS, s.mate, s.next)),
        _ => Turn::Made,
    }
}

// The visit of a child has succeeded; its node stands in the row.
pub fn walked(table: &[u32], h: Head, s: Seen) -> Turn
    requires { (7 < h.what) × (s.at < 8) × (s.count ≤ 6) }
    ensures { (f : Frame) (y : ℕ) → OfHead f h → OfSeen f s → Walks table.now f y result }
{
    if s.at + 1 < s.count {
        return walk_on(table, h, s);
    }
    if s.count <= s.at {
        return Turn::Failed;
    }
    match h.what {
        PARTS | PAIRS => Turn::Done(h.y),
        _ => Turn::Made,
    }
}

// It has failed: the row has the child as it was.
pub fn skipped(table: &[u32], h: Head, s: Seen) -> Turn
    requires { (7 < h.what) × (s.at < 8) × (s.count ≤ 6) }
    ensures { (f : Frame) → OfHead f h → OfSeen f s → Recovers table.now f result }
{
    if ONE_HAS < h.what || s.count <= s.at {
        return Turn::Failed;
    }
    if s.at + 1 < s.count {
        return Turn::Next(visit(APPLY, h.what, word(table, h.x, 2), s.next));
    }
    if h.what == ONE_HAS {
        return Turn::Made;
    }
    Turn::Failed
}
