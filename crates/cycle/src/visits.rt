// The cycle of visits. Applying an entry selects the rule by its kind; operands in a last position go round a loop; one
// child walker serves ALL, SOME and CONG. The nesting left falls at each call.
// As it is: table, store and record are handed on one by one. In one `&mut` struct a traversal took 1.05 to 1.15 times the time, a failing
// search 1.03 to 1.17, in four link orders on an x86-64 machine; TEST and PATH took less.
ghost use Rattle.std.specs.Prelude.{◌≡◌, ◌⊎◌, ◌+◌, ◌-◌, ◌<◌, ◌≢◌, MatchOption, eqb, ltb, length, set, if◌then◌else◌};
ghost use Rattle.words.specs.Words.{word_at};
ghost use Rattle.checks.specs.Good.{kind_of};
ghost use Rattle.state.specs.Answers.{node_in};
ghost use Rattle.index.specs.Run.{Fits};
ghost use Rattle.state.specs.Record.{mark_of, mask_of, record_long, notes_of};
ghost use Rattle.state.specs.Visits.{Gives};
ghost use Rattle.cycle.specs.Cycle.{Walks, Applied, Follows, entry_ahead, finished, Counted, Hinted, VisitsAhead, Ready, Last};

use crate::skipping::visits_to_failure;
use checks::kinds::{
    ALL, BUILD, CALL, CHOICE, CONG, ID, LEFT, MATCH, NOT, ONE, PATH, REC, SCOPE, SEQ, SOME, TEST,
    VARIABLES, WHERE,
};
use leaves::builder::{build, node};
use leaves::matcher::match_node;
use state::answers::{
    Answer, Attempt, HALF, answer_of, attempt_of, done, failure, no_nesting, no_units,
};
use state::reading::{
    HINT_ENTRY, HINT_VISITS, SCOPE_OPERAND, agree, count, entry, kind, node_word, row, scope_mask,
};
use state::record::{MISS, RECORD, Saved, bound_in, keep_words, put_back, restore, save, unbind};

// One visit: an entry applied as a strategy. Units first, then nesting; then it is counted. ALL, of which traversals are made,
// is looked at here: a term without children is given back at once.
#[cycle(visiting)]
pub fn apply(
    table: &[u32; 32768],
    store: &mut [u32],
    st: &mut [u32; RECORD],
    start: u32,
    given: u64,
    deep: u32,
) -> u64
    requires { Ready table.now store.old st.old start given }
    ensures { Applied table.now store.old st.old start given deep result st.new store.new }
{
    if kind(table, start) != ALL {
        return apply_loop(table, store, st, start, given, deep);
    }
    let left = (given % HALF) as u32;
    if left == 0 {
        return no_units();
    }
    if deep == 0 {
        return no_nesting(left);
    }
    if count(store, (given / HALF) as u32) == 0 {
        return given - 1;
    }
    walk(table, store, st, start, given - 1, deep - 1)
}

// One visit of any kind. An operand in a last position goes round the loop, one deeper.
#[cycle(visiting)]
fn apply_loop(
    table: &[u32; 32768],
    store: &mut [u32],
    st: &mut [u32; RECORD],
    start: u32,
    given: u64,
    deep: u32,
) -> u64
    requires { Ready table.now store.old st.old start given }
    ensures { Applied table.now store.old st.old start given deep result st.new store.new }
{
    let mut e = start;
    let mut s = given;
    let mut d = deep;
    loop {
        let left = (s % HALF) as u32;
        if left == 0 {
            return no_units();
        }
        if d == 0 {
            return no_nesting(left);
        }
        d -= 1;
        s -= 1;
        match kind(table, e) {
            REC..=CALL => {
                e = entry(table, e, 2);
            }
            SEQ => {
                let got = begin_seq(table, store, st, entry(table, e, 2), s, d);
                let Answer::Done(_, _) = answer_of(got) else {
                    return got;
                };
                s = got;
                e = entry(table, e, 3);
            }
            CHOICE..=LEFT => {
                // Where the first operand fails at its head, its visits are counted and not made.
                let first = entry(table, e, 2);
                if let Some(fails) = visits_to_failure(table, store, e, s, d) {
                    st[MISS] = entry(table, e, HINT_ENTRY);
                    s -= fails as u64;
                    e = entry(table, e, 3);
                    continue;
                }
                let saved = save(st);
                let got = apply_first(table, store, st, first, s, d);
                let Answer::Failed(rest) = answer_of(got) else {
                    return got;
                };
                restore(st, saved);
                s = done((s / HALF) as u32, rest);
                e = entry(table, e, 3);
            }
            // These two are called here, and not by `rule`, for the compiler to draw them into the loop: a level of a search
            // then takes one call fewer.
            CONG => {
                return cong(table, store, st, e, s, d);
            }
            ONE => {
                // Looked at here, so that a term without children takes no call.
                if count(store, (s / HALF) as u32) == 0 {
                    return failure((s % HALF) as u32);
                }
                return one(table, store, st, e, s, d);
            }
            _ => {
                return rule(table, store, st, e, s, d);
            }
        }
    }
}

// One visit of SEQ's first operand. A MATCH, with which a rewrite rule begins, is made from here and not by the loop.
#[cycle(visiting)]
fn begin_seq(
    table: &[u32; 32768],
    store: &mut [u32],
    st: &mut [u32; RECORD],
    start: u32,
    given: u64,
    deep: u32,
) -> u64
    requires { Ready table.now store.old st.old start given }
    ensures { Applied table.now store.old st.old start given deep result st.new store.new }
{
    if kind(table, start) != MATCH {
        return apply(table, store, st, start, given, deep);
    }
    let left = (given % HALF) as u32;
    if left == 0 {
        return no_units();
    }
    if deep == 0 {
        return no_nesting(left);
    }
    match_node(
        table,
        store,
        st,
        entry(table, start, 2),
        given - 1,
        deep - 1,
    )
}

// One visit of CHOICE's or LEFT's first operand. A CONG and a SCOPE are entered from here and not by the loop, so that an alternative that
// is one of them takes one call fewer, and a CONG none where constructor or count differ.
#[cycle(visiting)]
fn apply_first(
    table: &[u32; 32768],
    store: &mut [u32],
    st: &mut [u32; RECORD],
    start: u32,
    given: u64,
    deep: u32,
) -> u64
    requires { Ready table.now store.old st.old start given }
    ensures { Applied table.now store.old st.old start given deep result st.new store.new }
{
    let kind = kind(table, start);
    if kind != CONG && kind != SCOPE {
        return apply_loop(table, store, st, start, given, deep);
    }
    let left = (given % HALF) as u32;
    if left == 0 {
        return no_units();
    }
    if deep == 0 {
        return no_nesting(left);
    }
    if kind == SCOPE {
        return scope(table, store, st, start, given - 1, deep - 1);
    }
    cong(table, store, st, start, given - 1, deep - 1)
}

// The rule of a kind that the loop leaves: no operand is in a last position, and it is neither CONG nor ONE.
#[cycle(visiting)]
fn rule(
    table: &[u32; 32768],
    store: &mut [u32],
    st: &mut [u32; RECORD],
    e: u32,
    s: u64,
    d: u32,
) -> u64
    requires { Ready table.now store.old st.old e s × Last (kind_of table.now e) }
    ensures { Follows table.now store.old st.old e s d result st.new store.new }
{
    match kind(table, e) {
        ID => s,
        TEST..=NOT => guard(table, store, st, e, s, d),
        PATH => path(table, store, st, e, s, d),
        ALL | SOME => walk(table, store, st, e, s, d),
        MATCH => match_node(table, store, st, entry(table, e, 2), s, d),
        BUILD => build(table, store, st, entry(table, e, 2), (s % HALF) as u32, d),
        SCOPE => scope(table, store, st, e, s, d),
        WHERE => keep_subject(table, store, st, e, s, d),
        _ => failure((s % HALF) as u32),
    }
}

// TEST and NOT: mark and bindings as they were.
#[cycle(visiting)]
fn guard(
    table: &[u32; 32768],
    store: &mut [u32],
    st: &mut [u32; RECORD],
    e: u32,
    s: u64,
    deep: u32,
) -> u64
    requires { Ready table.now store.old st.old e s × ((kind_of table.now e ≡ 2) ⊎ (kind_of table.now e ≡ 3)) }
    ensures { Follows table.now store.old st.old e s deep result st.new store.new }
{
    let saved = save(st);
    let got = apply(table, store, st, entry(table, e, 2), s, deep);
    let Attempt::Ended(term, left) = attempt_of(got) else {
        return got;
    };
    restore(st, saved);
    if term.is_some() == (kind(table, e) == TEST) {
        done((s / HALF) as u32, left)
    } else {
        failure(left)
    }
}

// WHERE: the term as it was, the new bindings kept.
#[cycle(visiting)]
fn keep_subject(
    table: &[u32; 32768],
    store: &mut [u32],
    st: &mut [u32; RECORD],
    e: u32,
    s: u64,
    deep: u32,
) -> u64
    requires { Ready table.now store.old st.old e s × (kind_of table.now e ≡ 17) }
    ensures { Follows table.now store.old st.old e s deep result st.new store.new }
{
    let got = apply(table, store, st, entry(table, e, 2), s, deep);
    let Answer::Done(_, left) = answer_of(got) else {
        return got;
    };
    done((s / HALF) as u32, left)
}

// PATH i: child i, counted from 1.
#[cycle(visiting)]
fn path(
    table: &[u32; 32768],
    store: &mut [u32],
    st: &mut [u32; RECORD],
    e: u32,
    s: u64,
    deep: u32,
) -> u64
    requires { Ready table.now store.old st.old e s × (kind_of table.now e ≡ 9) }
    ensures { Follows table.now store.old st.old e s deep result st.new store.new }
{
    let i = entry(table, e, 1);
    let t = (s / HALF) as u32;
    let left = (s % HALF) as u32;
    if i == 0 || count(store, t) < i {
        return failure(left);
    }
    let got = apply(
        table,
        store,
        st,
        entry(table, e, 2),
        done(node_word(store, t, 1 + i), left),
        deep,
    );
    let Answer::Done(x, rest) = answer_of(got) else {
        return got;
    };
    let mut made = row(store, t);
    made[1 + (i as usize)] = x;
    node(store, st, made, rest)
}

// CONG: constructor and count must agree.
#[cycle(visiting)]
fn cong(
    table: &[u32; 32768],
    store: &mut [u32],
    st: &mut [u32; RECORD],
    e: u32,
    s: u64,
    deep: u32,
) -> u64
    requires { Ready table.now store.old st.old e s × (kind_of table.now e ≡ 10) }
    ensures { Follows table.now store.old st.old e s deep result st.new store.new }
{
    let t = (s / HALF) as u32;
    if !agree(table, store, e, t) {
        return failure((s % HALF) as u32);
    }
    walk(table, store, st, e, s, deep)
}

// The child walker: CONG with an operand for each child, ALL, and SOME, which keeps a child where its operand failed.
#[cycle(visiting)]
fn walk(
    table: &[u32; 32768],
    store: &mut [u32],
    st: &mut [u32; RECORD],
    e: u32,
    s: u64,
    deep: u32,
) -> u64
    requires { Ready table.now store.old st.old e s × Counted table.now store.old e (node_in s) }
    ensures { Walks table.now store.old st.old e s deep result st.new store.new }
{
    let t = (s / HALF) as u32;
    let mut left = (s % HALF) as u32;
    let kind = kind(table, e);
    let n = count(store, t);
    let name = node_word(store, t, 0);
    let ahead = visits_ahead(table, e, deep);
    let first = entry_ahead(table, e, ahead);
    let mut won = false;
    let mut a: u32 = 0;
    let mut b: u32 = 0;
    let mut others = [0u32; 4];
    for i in 0..n {
        if left < ahead {
            return no_units();
        }
        let c = node_word(store, t, 2 + i);
        let saved = save_for(st, kind);
        let got = apply(
            table,
            store,
            st,
            operand(table, e, kind, first, i),
            done(c, left - ahead),
            deep - ahead,
        );
        let Attempt::Ended(term, rest) = attempt_of(got) else {
            return got;
        };
        let y = match term {
            Some(x) => {
                won = true;
                x
            }
            None => {
                let Some(kept) = saved else {
                    return got;
                };
                restore(st, kept);
                c
            }
        };
        a = child_at(i, 0, y, a);
        b = child_at(i, 1, y, b);
        others = others_at(others, i, y);
        left = rest;
    }
    finish(
        store,
        st,
        kind,
        won,
        n,
        s,
        [name, n, a, b, others[0], others[1], others[2], others[3]],
        left,
    )
}

// How many visits lead to the first work of ALL's, SOME's or ONE's operand: those of a CALL and its REC, where it is known
// that there is nothing else in them and the nesting is enough; else 0.
// As it is: 0 is a number of visits as any other. It is taken from units and nesting with no test.
fn visits_ahead(table: &[u32; 32768], e: u32, deep: u32) -> u32
    requires { Hinted table.now × (e < 4096) }
    ensures { VisitsAhead table.now e deep result }
{
    if deep < 2 {
        return 0;
    }
    match kind(table, e) {
        ALL..=SOME => entry(table, e, HINT_VISITS),
        _ => 0,
    }
}

// The entry after so many visits.
fn entry_ahead(table: &[u32; 32768], e: u32, ahead: u32) -> u32
    requires { e < 4096 }
    ensures { result ≡ entry_ahead table.now e ahead }
{
    if ahead == 0 {
        return entry(table, e, 2);
    }
    entry(table, e, HINT_ENTRY)
}

// The operand for child i: its own in CONG, else the one.
fn operand(table: &[u32; 32768], e: u32, kind: u32, first: u32, i: u32) -> u32
    requires { (e < 4096) × (i < 6) }
    ensures { result ≡ (if eqb kind 10 then word_at table.now e (2 + i) else first) }
{
    if kind == CONG {
        return entry(table, e, 2 + i);
    }
    first
}

// The mark and the mask, for SOME, which may put them back.
fn save_for(st: &[u32; RECORD], kind: u32) -> Option<Saved>
    ensures { MatchOption result (kind ≢ 13) (λ saved. (kind ≡ 13) × (saved.mark ≡ mark_of st.now) × (saved.mask ≡ mask_of st.now)) }
{
    if kind == SOME { Some(save(st)) } else { None }
}

// The children that are made: the first and the second by themselves, so that a walk over two writes no array, the others
// in four words.
fn child_at(i: u32, place: u32, x: u32, old: u32) -> u32
    ensures { result ≡ (if eqb i place then x else old) }
{
    if i == place {
        return x;
    }
    old
}

fn others_at(others: [u32; 4], i: u32, x: u32) -> [u32; 4]
    requires { i < 6 }
    ensures { result ≡ (if ltb i 2 then others else set others (i - 2) x) }
{
    if i < 2 {
        return others;
    }
    let mut set = others;
    set[(i - 2) as usize] = x;
    set
}

// The walk's end: SOME needs a success; a term without children is returned itself.
fn finish(
    store: &mut [u32],
    st: &mut [u32; RECORD],
    kind: u32,
    won: bool,
    n: u32,
    s: u64,
    made: [u32; 8],
    left: u32,
) -> u64
    requires { Fits store.old (mark_of st.old) (notes_of st.old) × (length st.old ≡ record_long) × (node_in s < 131072) }
    ensures { Gives (finished kind won n s made st.old store.old left) st.old result st.new store.new }
{
    if kind == SOME {
        if !won {
            return failure(left);
        }
        return node(store, st, made, left);
    }
    if n == 0 {
        return s;
    }
    node(store, st, made, left)
}

// ONE: the leftmost child that succeeds. The visits that lead to its operand's first work are counted at once, as in the child
// walker.
#[cycle(visiting)]
fn one(
    table: &[u32; 32768],
    store: &mut [u32],
    st: &mut [u32; RECORD],
    e: u32,
    s: u64,
    deep: u32,
) -> u64
    requires { Ready table.now store.old st.old e s × (kind_of table.now e ≡ 12) }
    ensures { Follows table.now store.old st.old e s deep result st.new store.new }
{
    let t = (s / HALF) as u32;
    let mut left = (s % HALF) as u32;
    let n = count(store, t);
    let saved = save(st);
    let ahead = visits_ahead(table, e, deep);
    let op = entry_ahead(table, e, ahead);
    for i in 0..n {
        if left < ahead {
            return no_units();
        }
        let got = apply_loop(
            table,
            store,
            st,
            op,
            done(node_word(store, t, 2 + i), left - ahead),
            deep - ahead,
        );
        let Attempt::Ended(term, rest) = attempt_of(got) else {
            return got;
        };
        if let Some(x) = term {
            let mut made = row(store, t);
            made[2 + (i as usize)] = x;
            return node(store, st, made, rest);
        }
        restore(st, saved);
        left = rest;
    }
    failure(left)
}

// One visit of a SCOPE's operand. A SCOPE there is entered from here and not by the loop, so that SCOPEs nested in SCOPEs take
// one frame a level.
#[cycle(visiting)]
fn apply_in_scope(
    table: &[u32; 32768],
    store: &mut [u32],
    st: &mut [u32; RECORD],
    start: u32,
    given: u64,
    deep: u32,
) -> u64
    requires { Ready table.now store.old st.old start given }
    ensures { Applied table.now store.old st.old start given deep result st.new store.new }
{
    if kind(table, start) != SCOPE {
        return apply_loop(table, store, st, start, given, deep);
    }
    let left = (given % HALF) as u32;
    if left == 0 {
        return no_units();
    }
    if deep == 0 {
        return no_nesting(left);
    }
    scope(table, store, st, start, given - 1, deep - 1)
}

// SCOPE: nothing is saved where no masked variable is bound.
#[cycle(visiting)]
fn scope(
    table: &[u32; 32768],
    store: &mut [u32],
    st: &mut [u32; RECORD],
    e: u32,
    s: u64,
    deep: u32,
) -> u64
    requires { Ready table.now store.old st.old e s × (kind_of table.now e ≡ 16) }
    ensures { Follows table.now store.old st.old e s deep result st.new store.new }
{
    let mask = scope_mask(table, e);
    if bound_in(st, mask) != 0 {
        return hiding(table, store, st, e, s, deep);
    }
    let got = apply_in_scope(table, store, st, entry(table, e, SCOPE_OPERAND), s, deep);
    unbind(st, mask);
    got
}

// SCOPE where some masked variable is bound: its word is kept and put back, on failure too.
#[cycle(visiting)]
fn hiding(
    table: &[u32; 32768],
    store: &mut [u32],
    st: &mut [u32; RECORD],
    e: u32,
    s: u64,
    deep: u32,
) -> u64
    requires { Ready table.now store.old st.old e s × (kind_of table.now e ≡ 16) }
    ensures { Follows table.now store.old st.old e s deep result st.new store.new }
{
    let mask = scope_mask(table, e);
    let hidden = bound_in(st, mask);
    let mut kept = [0u32; VARIABLES];
    keep_words(&mut kept, st, hidden);
    unbind(st, mask);
    let got = apply_in_scope(table, store, st, entry(table, e, SCOPE_OPERAND), s, deep);
    unbind(st, mask);
    put_back(st, &kept, hidden);
    got
}
