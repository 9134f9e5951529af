// The signature that a caller may lend: whether it fits, and the lowest entry and the lowest node that do not obey it. One pass
// over each.
ghost use Rattle.std.specs.Prelude.{◌≡◌, ◌≤◌, length};
ghost use Rattle.words.specs.Tests.{rejected};
ghost use Rattle.words.specs.Words.{rows};
ghost use Rattle.checks.specs.Checked.{place_of};
ghost use Rattle.checks.specs.Numbers.{checked_of};
ghost use Rattle.checks.specs.Signature as obeying;
ghost use Rattle.checks.specs.Signature.{signature_fits, entry_obeys, node_obeys, entries_checked, nodes_checked};

use crate::kinds::{CONG, PCON};
use crate::refusal::Refusal;
use crate::search::lowest;
use words::word;

// At most 65,536 words, and none above 7.
pub fn signature_fits(signature: &[u32]) -> bool
    ensures { result ≡ signature_fits signature.now }
{
    signature.len() <= 65536 && signature.iter().all(|count| *count <= 7)
}

// The constructor c is in the list, and declared with the count n.
fn declares(signature: &[u32], c: u32, n: u32) -> bool
    ensures { result ≡ obeying.declares signature.now c n }
{
    n <= 6 && signature.get(c as usize) == Some(&n)
}

// A CONG's or a PCON's constructor is declared with its operand count.
fn entry_obeys(signature: &[u32], table: &[u32], e: u32) -> bool
    ensures { result ≡ entry_obeys signature.now table.now e }
{
    let w = word(table, e, 0);
    match w / 16 {
        CONG | PCON => declares(signature, word(table, e, 1), w % 16),
        _ => true,
    }
}

// A node's constructor is declared with its child count.
fn node_obeys(signature: &[u32], store: &[u32], k: u32) -> bool
    ensures { result ≡ node_obeys signature.now store.now k }
{
    declares(signature, word(store, k, 0), word(store, k, 1))
}

// The check of a table's entries: 10 with the lowest that does not obey.
pub fn check_entries(signature: &[u32], table: &[u32]) -> Result<(), Refusal>
    requires { length table.now ≤ 32768 }
    ensures { checked_of result ≡ entries_checked signature.now table.now }
{
    let n = (table.len() / 8) as u32;
    match lowest(n, |e| entry_obeys(signature, table, e)) {
        Some(e) => Err(Refusal::EntryDisobeys(e)),
        None => Ok(()),
    }
}

// The check of the nodes below the mark: 11 with the lowest that does not obey.
pub fn check_nodes(signature: &[u32], store: &[u32], mark: u32) -> Result<(), Refusal>
    ensures { checked_of result ≡ nodes_checked signature.now store.now mark }
{
    match lowest(mark, |k| node_obeys(signature, store, k)) {
        Some(k) => Err(Refusal::NodeDisobeys(k)),
        None => Ok(()),
    }
}
