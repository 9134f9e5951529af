// Operands in preorder, from the last entry back: an entry's first operand is the next entry, and each further one begins
// where the one before it ends. `ends` holds where each entry's tree ends.
ghost use Rattle.std.specs.Prelude.{◌≡◌, ◌*◌, ◌≤◌, ◌<◌, length, get_or};
ghost use Rattle.words.specs.Words.{word_at};
ghost use Rattle.translate.specs.Links.{inner_of, row_linked, LinkedFrom};

use checks::kinds::CALL;
use words::{put_row, row};

// An entry's words with its operands, and where its tree ends.
#[derive(Clone, Copy)]
pub struct Linked {
    pub row: [u32; 8],
    pub end: u32,
}

// Where the tree at entry o ends; 0 outside.
fn end_at(ends: &[u32], o: u32) -> u32
    ensures { result ≡ get_or ends.now o 0 }
{
    ends.get(o as usize).copied().unwrap_or(0)
}

// How many operands are entries of the same tree: a CALL has none.
fn inner(w: u32) -> u32
    ensures { result ≡ inner_of w }
{
    if w / 16 == CALL { 0 } else { (w % 16).min(6) }
}

// The words of entry e with its operands.
fn row_linked(table: &[u32], ends: &[u32], e: u32) -> Linked
    requires { e < 4294967295 }
    ensures { result ≡ row_linked table.now ends.now e }
{
    let mut row = row(table, e);
    let mut end = e + 1;
    for i in 0..inner(row[0]) {
        row[(2 + i) as usize] = end;
        end = end_at(ends, end);
    }
    Linked { row, end }
}

// The operands of the entries from `first` to `stop`.
pub(crate) fn link(table: &mut [u32], first: u32, stop: u32, ends: &mut [u32])
    requires { (first ≤ stop) × (8 * stop ≤ length table.old) × (stop ≤ length ends.old) }
    ensures { LinkedFrom table.old ends.old first stop table.new ends.new }
{
    for e in (first..stop).rev() {
        let got = row_linked(table, ends, e);
        put_row(table, e, got.row);
        ends[e as usize] = got.end;
    }
}
