// Rows of eight words, and the node that a visit makes.
ghost use Rattle.std.specs.Prelude.{◌≡◌, ℕ, ◌+◌, ◌*◌, ◌%◌, ◌≤◌, ◌<◌, length, get_or, false, [], ◌∷◌};
ghost use Rattle.checks.specs.Checked.{place_of};
ghost use Rattle.meaning.specs.Store.{row as node_row};
ghost use Rattle.words.specs.Words.{word_at};
ghost use Rattle.meaning.specs.Shared.{node_with};
ghost use Rattle.turns.specs.Ways.{kids};
ghost use Rattle.machine.specs.Stack.{row_at};
ghost use Rattle.machine.specs.Machine.{child_or0, Node};

use crate::{FULL, Machine, SUCCEEDED, state};
use index::chains::has;
use turns::turn::few;
use words::put_row;

// As it is: rows are read here, and not by `row` of words, which tests each of the eight places.
// The eight words of row r; zeros outside the words.
pub(crate) fn row_at(words: &[u32], r: u32) -> [u32; 8]
    requires { length words.now % 8 ≡ 0 }
    ensures { result ≡ row_at words.now r }
{
    if 8 * (r as usize) < words.len() {
        row_inside(words, r)
    } else {
        [0; 8]
    }
}

// The eight words of row r, which lies inside the words.
fn row_inside(words: &[u32], r: u32) -> [u32; 8]
    requires { 8 * r + 8 ≤ length words.now }
    ensures { result ≡ row_at words.now r }
{
    let c = 8 * (r as usize);
    [
        words[c],
        words[c + 1],
        words[c + 2],
        words[c + 3],
        words[c + 4],
        words[c + 5],
        words[c + 6],
        words[c + 7],
    ]
}

// Child j of a row, which has n of them; 0 where there is none.
fn child(row: [u32; 8], n: u32, j: u32) -> u32
    requires { j < 6 }
    ensures { result ≡ child_or0 row n j }
{
    if j < n { row[2 + (j as usize)] } else { 0 }
}

// The eight words of the node that a row says: zeros after its last child.
fn padded(row: [u32; 8]) -> [u32; 8]
    ensures { result ≡ node_row (get_or row 0 0) (kids row) }
{
    let n = few(row[1]);
    [
        row[0],
        n,
        child(row, n, 0),
        child(row, n, 1),
        child(row, n, 2),
        child(row, n, 3),
        child(row, n, 4),
        child(row, n, 5),
    ]
}

// The node below the mark that has these words.
fn standing(store: &[u32], mark: u32, row: [u32; 8]) -> Option<u32>
    ensures { place_of result ≡ node_with store.now row mark }
{
    for k in (0..mark).rev() {
        if has(store, k, row) {
            return Some(k);
        }
    }
    None
}

// The node of the constructor c without children, where it stands. What is asked for is told by numbers: a row would be in memory.
fn standing_leaf(store: &[u32], mark: u32, c: u32) -> Option<u32>
    ensures { place_of result ≡ node_with store.now (node_row c []) mark }
{
    standing(store, mark, padded([c, 0, 0, 0, 0, 0, 0, 0]))
}

// The node of row r of the list of frames, where it stands.
fn standing_row(store: &[u32], work: &[u32], r: u32, mark: u32) -> Option<u32>
    requires { 8 * r + 8 ≤ length work.now }
    ensures { place_of result ≡ node_with store.now (node_row (word_at work.now r 0) (kids (row_at work.now r))) mark }
{
    standing(store, mark, padded(row_inside(work, r)))
}

// The node of a row at the mark; no room where the mark equals the store's nodes.
fn put_node(store: &mut [u32], m: Machine, i: u32, row: [u32; 8]) -> Machine
    requires { (length store.old % 8 ≡ 0) × (length store.old ≤ 1048576) }
    ensures { Node false store.old i m row result store.new }
{
    let k = m.mark;
    if store.len() < 8 * (k as usize) + 8 {
        return state(m, i, FULL, 0, 0);
    }
    put_row(store, k, padded(row));
    Machine {
        mark: k + 1,
        ..state(m, i, SUCCEEDED, 0, k)
    }
}

// The node of the constructor c without children: one that stands, where nodes are shared, or a new one.
pub(crate) fn put_leaf(store: &mut [u32], m: Machine, i: u32, c: u32, shares: bool) -> Machine
    requires { (length store.old % 8 ≡ 0) × (length store.old ≤ 1048576) }
    ensures { Node shares store.old i m (c ∷ 0 ∷ 0 ∷ 0 ∷ 0 ∷ 0 ∷ 0 ∷ 0 ∷ []) result store.new }
{
    if shares {
        if let Some(y) = standing_leaf(store, m.mark, c) {
            return state(m, i, SUCCEEDED, 0, y);
        }
    }
    put_node(store, m, i, [c, 0, 0, 0, 0, 0, 0, 0])
}

// The node of row r of the list of frames: one that stands, where nodes are shared, or a new one.
pub(crate) fn put_made(
    store: &mut [u32],
    work: &[u32],
    m: Machine,
    i: u32,
    r: u32,
    shares: bool,
) -> Machine
    requires { (length store.old % 8 ≡ 0) × (length store.old ≤ 1048576) × (8 * r + 8 ≤ length work.now) }
    ensures { Node shares store.old i m (row_at work.now r) result store.new }
{
    if shares {
        if let Some(y) = standing_row(store, work, r, m.mark) {
            return state(m, i, SUCCEEDED, 0, y);
        }
    }
    put_node(store, m, i, row_inside(work, r))
}
