// Reading the table, which a run holds in 32,768 words, and the store. A node that is read stands in the store, so no read tests the
// store's length, and a count needs no bound.
ghost use Rattle.std.specs.Prelude.{◌≡◌, ◌<◌, ◌+◌, min, true, false};
ghost use Rattle.words.specs.Words.{word_at};
ghost use Rattle.checks.specs.Good.{kind_of, operand_count, mask_by};
ghost use Rattle.checks.specs.Kinds.{ours};
ghost use Rattle.state.specs.Visits.{count_of, row_at, agreeing, Stored};

use crate::answers::HALF;

// The words of an entry that a run may note a hint in, where they are no operands: an entry, and a number of visits.
pub const HINT_ENTRY: u32 = 4;

pub const HINT_VISITS: u32 = 5;

// The word of a SCOPE's operand, after its mask.
pub const SCOPE_OPERAND: u32 = 3;

// Word j of the entry e.
pub fn entry(table: &[u32; 32768], e: u32, j: u32) -> u32
    requires { (e < 4096) × (j < 8) }
    ensures { result ≡ word_at table.now e j }
{
    table[8 * (e as usize) + (j as usize)]
}

pub fn kind(table: &[u32; 32768], e: u32) -> u32
    requires { e < 4096 }
    ensures { result ≡ kind_of table.now e }
{
    entry(table, e, 0) / 16
}

pub fn operands(table: &[u32; 32768], e: u32) -> u32
    requires { e < 4096 }
    ensures { result ≡ operand_count table.now e }
{
    entry(table, e, 0) % 16
}

// The mask of the SCOPE e: words 1 and 2, the low one first.
pub fn scope_mask(table: &[u32; 32768], e: u32) -> u64
    requires { e < 4096 }
    ensures { result ≡ mask_by ours table.now e }
{
    entry(table, e, 1) as u64 + entry(table, e, 2) as u64 * HALF
}

// Word j of node k.
pub fn node_word(store: &[u32], k: u32, j: u32) -> u32
    requires { Stored store.now k × (j < 8) }
    ensures { result ≡ word_at store.now k j }
{
    store[8 * (k as usize) + (j as usize)]
}

// The child count of node k, which is at most 6.
pub fn count(store: &[u32], k: u32) -> u32
    requires { Stored store.now k }
    ensures { result ≡ count_of store.now k }
{
    node_word(store, k, 1)
}

// The eight words of node k.
pub fn row(store: &[u32], k: u32) -> [u32; 8]
    requires { Stored store.now k }
    ensures { result ≡ row_at store.now k }
{
    let at = 8 * (k as usize);
    let mut row = [0u32; 8];
    row.copy_from_slice(&store[at..at + 8]);
    row
}

// Whether the constructor and the count of entry p are those of node k.
pub fn agree(table: &[u32; 32768], store: &[u32], p: u32, k: u32) -> bool
    requires { (p < 4096) × Stored store.now k }
    ensures { result ≡ agreeing table.now store.now p k }
{
    entry(table, p, 1) == node_word(store, k, 0) && operands(table, p) == count(store, k)
}
