// A new node at the mark, and the builder: nodes after their children, left to right. A variable without its binding ends the run.
ghost use Rattle.std.specs.Prelude.{◌≡◌, ◌<◌, ◌≤◌, length};
ghost use Rattle.checks.specs.Good.{kind_of};
ghost use Rattle.index.specs.Run.{Fits};
ghost use Rattle.state.specs.Record.{mark_of, room_of, notes_of, record_long};
ghost use Rattle.state.specs.Visits.{noded, Gives, Entries, Buildable, Builds, BuildsVariable};

use checks::kinds::PVAR;
use index::lent::{Node, ask};
use state::answers::{Answer, answer_of, done, no_binding, no_nesting, no_room, no_units};
use state::reading::{entry, kind, operands};
use state::record::{MARK, NODES, RECORD, ROOM, TOP, is_bound, word_of};
use words::put_row;

// The node of these eight words where the room does not let it be made at once: there is none, or the index is asked.
fn node_asked(store: &mut [u32], st: &mut [u32; RECORD], made: [u32; 8], left: u32) -> u64
    requires { Fits store.old (mark_of st.old) (notes_of st.old) × (length st.old ≡ record_long) × (room_of st.old ≤ mark_of st.old) }
    ensures { Gives (noded made st.old store.old left) st.old result st.new store.new }
{
    if st[ROOM] != 0 {
        return no_room(left);
    }
    let n = st[NODES];
    let k = st[MARK];
    let top = st[TOP];
    match ask(store, n, k, top, made) {
        Node::Stands(x) => done(x, left),
        Node::Full => no_room(left),
        Node::Made(x) => {
            st[MARK] = x + 1;
            st[TOP] = x + 1;
            done(x, left)
        }
    }
}

// The node of these eight words at the mark; no room where the mark equals the store's nodes.
pub fn node(store: &mut [u32], st: &mut [u32; RECORD], made: [u32; 8], left: u32) -> u64
    requires { Fits store.old (mark_of st.old) (notes_of st.old) × (length st.old ≡ record_long) }
    ensures { Gives (noded made st.old store.old left) st.old result st.new store.new }
{
    let k = st[MARK];
    if st[ROOM] <= k {
        return node_asked(store, st, made, left);
    }
    put_row(store, k, made);
    st[MARK] = k + 1;
    done(k, left)
}

// BUILD of the pattern p, a variable: its node.
fn build_variable(table: &[u32; 32768], st: &[u32; RECORD], p: u32, units: u32, deep: u32) -> u64
    requires { Entries table.now × (p < 4096) × (kind_of table.now p ≡ 18) }
    ensures { BuildsVariable table.now st.now p units deep result }
{
    if units == 0 {
        return no_units();
    }
    if deep == 0 {
        return no_nesting(units);
    }
    let v = entry(table, p, 1);
    if is_bound(st, v) {
        return done(word_of(st, v), units - 1);
    }
    no_binding(v, units - 1)
}

// BUILD of the pattern p. Its variables are built here and not by a call of its own.
pub fn build(
    table: &[u32; 32768],
    store: &mut [u32],
    st: &mut [u32; RECORD],
    p: u32,
    units: u32,
    deep: u32,
) -> u64
    requires { Buildable table.now store.old st.old p }
    ensures { Builds table.now store.old st.old p units deep result st.new store.new }
{
    if kind(table, p) == PVAR {
        return build_variable(table, st, p, units, deep);
    }
    if units == 0 {
        return no_units();
    }
    if deep == 0 {
        return no_nesting(units);
    }
    let mut left = units - 1;
    let n = operands(table, p);
    let mut made = [entry(table, p, 1), n, 0, 0, 0, 0, 0, 0];
    for i in 0..n {
        let q = entry(table, p, 2 + i);
        let got = if kind(table, q) == PVAR {
            build_variable(table, st, q, left, deep - 1)
        } else {
            build(table, store, st, q, left, deep - 1)
        };
        let Answer::Done(x, rest) = answer_of(got) else {
            return got;
        };
        made[2 + (i as usize)] = x;
        left = rest;
    }
    // The row is in memory already, so the index gets the row itself.
    if st[ROOM] <= st[MARK] {
        return node_asked(store, st, made, left);
    }
    node(store, st, made, left)
}
