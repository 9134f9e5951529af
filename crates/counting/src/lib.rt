// Where the units go: the run in one call, with counts. What is refused is refused by number, with nothing written.
#![tactic(auto)]

ghost use Rattle.std.specs.Prelude.{◌≡◌, ℕ, ◌+◌, ◌*◌, ◌<◌, ◌≤◌, length, take, drop};
ghost use Rattle.calls.specs.Refused.{lent_signature};
ghost use Rattle.calls.specs.Run.{input};
ghost use Rattle.checks.specs.Numbers.{checked_of};
ghost use Rattle.tallying.specs.Added.{counted_at_return, counted_outcome};
ghost use Rattle.counting.specs.Counted.{has_room, counts_checked, counted_of, indexed_counted_at_return, indexed_counted_of};

use checks::refusal::Refusal;
use checks::search::lowest;
use indexed::refusing::{check_indexed_run, store_words};
use refusals::check_run;
use tallying::{RanCounted, run_on};
use words::clear_from;

// The highest count that may be lent: with the visits of a run it is still a word.
const HIGHEST: u64 = 18446744069414584320;

// No count of entry x is too high.
fn has_room(counts: &[u64], x: u32) -> bool
    requires { 4 * x + 3 < length counts.now }
    ensures { result ≡ has_room counts.now x }
{
    for j in 0..4 {
        if HIGHEST < counts[4 * (x as usize) + j] {
            return false;
        }
    }
    true
}

// No count is too high.
fn check_counts(counts: &[u64], n: u32) -> Result<(), Refusal>
    requires { length counts.now ≡ 4 * n }
    ensures { checked_of result ≡ counts_checked counts.now n }
{
    match lowest(n, |x| has_room(counts, x)) {
        Some(x) => Err(Refusal::Count(x)),
        None => Ok(()),
    }
}

// Refused, with nothing written, or run. A signature that is lent may be empty.
pub fn run_counted(
    table: &[u32],
    store: &mut [u32],
    bindings: &mut [u32],
    mark: u32,
    start: u32,
    subject: u32,
    units: u32,
    counts: &mut [u64],
    signature: Option<&[u32]>,
) -> Result<RanCounted, Refusal>
    ensures { counted_at_return (counted_outcome result subject mark) store.new bindings.new counts.new
        ≡ counted_of (lent_signature signature.entry) (input table.now store.old bindings.old mark start subject units) counts.old }
{
    let n = table.len() / 8;
    if counts.len() != 4 * n {
        return Err(Refusal::Sizes);
    }
    check_run(table, store, bindings, mark, start, subject, signature)?;
    check_counts(counts, n as u32)?;
    Ok(run_on(
        table, store, bindings, mark, start, subject, units, counts, false,
    ))
}

// Refused, with nothing written, or run with one node for one term. The first `words` of what is lent are the store's, and the rest is the
// index, which is all zero at return. A node that stands is looked for among the nodes, one by one. A signature that is lent may be empty.
pub fn run_indexed_counted(
    table: &[u32],
    lent: &mut [u32],
    words: usize,
    bindings: &mut [u32],
    mark: u32,
    start: u32,
    subject: u32,
    units: u32,
    counts: &mut [u64],
    signature: Option<&[u32]>,
) -> Result<RanCounted, Refusal>
    ensures { indexed_counted_at_return (counted_outcome result subject mark) (take words lent.new) bindings.new counts.new (drop words lent.new)
        ≡ indexed_counted_of (lent_signature signature.entry) (input table.now (take words lent.old) bindings.old mark start subject units)
        (drop words lent.old) counts.old }
{
    let n = table.len() / 8;
    if counts.len() != 4 * n {
        return Err(Refusal::Sizes);
    }
    let all = lent.len();
    let own = store_words(words, all);
    let size = all - own;
    check_indexed_run(
        table,
        &lent[..own],
        bindings,
        mark,
        start,
        subject,
        size,
        signature,
    )?;
    check_counts(counts, n as u32)?;
    clear_from(lent, own);
    Ok(run_on(
        table,
        &mut lent[..own],
        bindings,
        mark,
        start,
        subject,
        units,
        counts,
        true,
    ))
}
