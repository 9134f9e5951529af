// What the given table tells of an entry's first operand before a run: hints, which the run keeps in two words that the entry
// does not use.
ghost use Rattle.std.specs.Prelude.{IfSome};
ghost use Rattle.loading.specs.Loaded.{HeadFound, Calls, Hints};

use checks::entries::kind_of;
use checks::kinds::{ALL, CALL, CHOICE, LEFT, MATCH, PCON, REC, SCOPE, SEQ, SOME, operands_from};
use words::word;

// An entry, and how many visits come to it, or before it.
#[derive(Clone, Copy)]
pub struct Hint {
    pub entry: u32,
    pub visits: u32,
}

// A MATCH of a PCON: the PCON's visit is the second.
fn match_head(table: &[u32], q: u32) -> Option<Hint>
    ensures { IfSome result (λ h. HeadFound table.now q 2 h.entry h.visits) }
{
    if kind_of(table, q) != MATCH {
        return None;
    }
    let entry = word(table, q, 2);
    if kind_of(table, entry) != PCON {
        return None;
    }
    Some(Hint { entry, visits: 2 })
}

// A MATCH of a PCON, alone or first in a SEQ.
fn seq_head(table: &[u32], q: u32) -> Option<Hint>
    ensures { IfSome result (λ h. HeadFound table.now q 3 h.entry h.visits) }
{
    if kind_of(table, q) != SEQ {
        return match_head(table, q);
    }
    let h = match_head(table, word(table, q, 2))?;
    Some(Hint {
        visits: h.visits + 1,
        ..h
    })
}

// A MATCH of a PCON, alone or first in a SEQ, or so inside a SCOPE.
fn scope_head(table: &[u32], q: u32) -> Option<Hint>
    ensures { IfSome result (λ h. HeadFound table.now q 4 h.entry h.visits) }
{
    if kind_of(table, q) != SCOPE {
        return seq_head(table, q);
    }
    let h = seq_head(table, word(table, q, operands_from(SCOPE)))?;
    Some(Hint {
        visits: h.visits + 1,
        ..h
    })
}

// A CALL of a REC: the REC's operand is visited after both.
fn body_called(table: &[u32], q: u32) -> Option<Hint>
    ensures { IfSome result (λ h. Calls table.now h.entry q h.visits) }
{
    if kind_of(table, q) != CALL {
        return None;
    }
    let r = word(table, q, 2);
    if kind_of(table, r) != REC {
        return None;
    }
    Some(Hint {
        entry: word(table, r, 2),
        visits: 2,
    })
}

// What is known of entry e: of CHOICE and LEFT what their first operand begins with, of ALL, ONE and SOME where their operand
// leads.
pub(crate) fn hint_for(table: &[u32], e: u32) -> Option<Hint>
    ensures { IfSome result (λ h. Hints table.now e h.entry h.visits) }
{
    let q = word(table, e, 2);
    match kind_of(table, e) {
        CHOICE..=LEFT => scope_head(table, q),
        ALL..=SOME => body_called(table, q),
        _ => None,
    }
}
