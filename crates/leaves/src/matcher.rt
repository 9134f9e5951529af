// The matcher: pattern and term walked together, left to right. The bindings are one record that it fills as it walks: the
// run's own, in place, for the children of a MATCH's pattern. Its core, for a pattern nested in one, takes and returns the record by
// value, and fills its own copy, in place at every level below.
ghost use Rattle.std.specs.Prelude.{◌≡◌, ◌<◌, length};
ghost use Rattle.state.specs.Record.{record_long, held};
ghost use Rattle.state.specs.Visits.{Pattern, Agreed, Matchable, Matches, MatchesChildren, Bound};

use crate::compare::same;
use checks::kinds::PVAR;
use state::answers::{Answer, HALF, answer_of, done, failure, no_nesting, no_units, stopped};
use state::reading::{agree, entry, kind, node_word, operands};
use state::record::{Bindings, MISS, RECORD, bind, give_up, is_bound, put_variable, word_of};

// The children of a PCON whose constructor and count agree with the node's, after its own visit, one by one, in the record lent. Some
// nesting is left for them, so that the loop does not test it; its caller does.
fn match_nested(
    table: &[u32; 32768],
    store: &[u32],
    st: &mut [u32; RECORD],
    p: u32,
    s: u64,
    deep: u32,
) -> u64
    requires { (length st.old ≡ record_long) × Agreed table.now store.now p s deep × Bound store.now (held st.old) }
    ensures { MatchesChildren table.now store.now deep p s st.old result st.new }
{
    let t = (s / HALF) as u32;
    let mut left = (s % HALF) as u32;
    for i in 0..operands(table, p) {
        let q = entry(table, p, 2 + i);
        let c = node_word(store, t, 2 + i);
        if left == 0 {
            return no_units();
        }
        left -= 1;
        if kind(table, q) == PVAR {
            let v = entry(table, q, 1);
            if is_bound(st, v) {
                // A call gets a copy of the slice, so that the slice itself stays in registers; so below.
                let words = store;
                let got = same(words, word_of(st, v), c, left, deep - 1);
                let Answer::Done(_, rest) = answer_of(got) else {
                    give_up(st, q, got);
                    return got;
                };
                left = rest;
            } else {
                put_variable(st, v, c);
            }
        } else {
            if !agree(table, store, q, c) {
                st[MISS] = q;
                return failure(left);
            }
            if operands(table, q) != 0 {
                if deep == 1 {
                    return stopped(left);
                }
                let words = store;
                let got = match_nested(table, words, st, q, done(c, left), deep - 1);
                let Answer::Done(_, rest) = answer_of(got) else {
                    return got;
                };
                left = rest;
            }
        }
    }
    done(0, left)
}

// The same by value: the record is taken and returned, and filled on the way.
fn match_children(
    table: &[u32; 32768],
    store: &[u32],
    p: u32,
    s: u64,
    b: Bindings,
    deep: u32,
) -> (u64, Bindings)
    requires { Agreed table.now store.now p s deep × Bound store.now (held b.words) }
    ensures { MatchesChildren table.now store.now deep p s b.words result.0 result.1.words }
{
    let mut words = b.words;
    let got = match_nested(table, store, &mut words, p, s, deep);
    (got, Bindings { words })
}

// The children of a PCON, matched in the run's record, for a MATCH's own pattern. The last child goes round the loop: its children
// are next, with a level of nesting less. A failure leaves the bindings made so far, which are of no account then.
fn match_in_place(
    table: &[u32; 32768],
    store: &[u32],
    st: &mut [u32; RECORD],
    p: u32,
    s: u64,
    deep: u32,
) -> u64
    requires { (length st.old ≡ record_long) × Agreed table.now store.now p s deep × Bound store.now (held st.old) }
    ensures { MatchesChildren table.now store.now deep p s st.old result st.new }
{
    let mut x = p;
    let mut t = (s / HALF) as u32;
    let mut left = (s % HALF) as u32;
    let mut d = deep;
    let mut n = operands(table, x);
    // As it is: it is no count over a range. At a pattern in the last place it begins anew.
    let mut i: u32 = 0;
    while i < n {
        let q = entry(table, x, 2 + i);
        let c = node_word(store, t, 2 + i);
        if left == 0 {
            return no_units();
        }
        left -= 1;
        i += 1;
        if kind(table, q) == PVAR {
            let v = entry(table, q, 1);
            if is_bound(st, v) {
                let words = store;
                let got = same(words, word_of(st, v), c, left, d - 1);
                let Answer::Done(_, rest) = answer_of(got) else {
                    give_up(st, q, got);
                    return got;
                };
                left = rest;
            } else {
                put_variable(st, v, c);
            }
        } else {
            if !agree(table, store, q, c) {
                st[MISS] = q;
                return failure(left);
            }
            let m = operands(table, q);
            if m != 0 {
                if d == 1 {
                    return stopped(left);
                }
                if i == n {
                    x = q;
                    t = c;
                    d -= 1;
                    n = m;
                    i = 0;
                } else {
                    let words = store;
                    let (got, Bindings { words: filled }) = match_children(
                        table,
                        words,
                        q,
                        done(c, left),
                        Bindings { words: *st },
                        d - 1,
                    );
                    let Answer::Done(_, rest) = answer_of(got) else {
                        st[MISS] = filled[MISS];
                        return got;
                    };
                    left = rest;
                    *st = filled;
                }
            }
        }
    }
    done(0, left)
}

// MATCH of the pattern p on a node: the root is looked at first.
pub fn match_node(
    table: &[u32; 32768],
    store: &[u32],
    st: &mut [u32; RECORD],
    p: u32,
    s: u64,
    deep: u32,
) -> u64
    requires { Matchable table.now store.now st.old p s × Pattern table.now p }
    ensures { Matches table.now store.now st.old p s deep result st.new }
{
    let left = (s % HALF) as u32;
    if left == 0 {
        return no_units();
    }
    if deep == 0 {
        return no_nesting(left);
    }
    let t = (s / HALF) as u32;
    if kind(table, p) == PVAR {
        let v = entry(table, p, 1);
        if is_bound(st, v) {
            let words = store;
            let got = same(words, word_of(st, v), t, left - 1, deep - 1);
            let Answer::Done(_, rest) = answer_of(got) else {
                give_up(st, p, got);
                return got;
            };
            return done(t, rest);
        }
        let Bindings { words } = bind(Bindings { words: *st }, v, t);
        *st = words;
        return s - 1;
    }
    if !agree(table, store, p, t) {
        st[MISS] = p;
        return failure(left - 1);
    }
    if operands(table, p) == 0 {
        return s - 1;
    }
    if deep == 1 {
        return stopped(left - 1);
    }
    let words = store;
    let got = match_in_place(table, words, st, p, s - 1, deep - 1);
    let Answer::Done(_, rest) = answer_of(got) else {
        return got;
    };
    done(t, rest)
}
