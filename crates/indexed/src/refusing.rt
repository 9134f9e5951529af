// What the calls with an index refuse: a run's refusals, too short an index among the sizes, and a node with an earlier one's words.
ghost use Rattle.std.specs.Prelude.{◌≡◌, List, ℕ, min, length};
ghost use Rattle.calls.specs.Refused.{lent_signature};
ghost use Rattle.calls.specs.Run.{input};
ghost use Rattle.calls.specs.Many.{handed};
ghost use Rattle.calls.specs.Indexed.{indexed_words_refused_by, indexed_refused, indexed_many_refused};
ghost use Rattle.checks.specs.Kinds.{ours};
ghost use Rattle.checks.specs.Numbers.{checked_of};

use checks::refusal::Refusal;
use index::twins::first_twin;
use refusals::{check_words, start_fits, starts_fit};

// How many of the lent words are the store's: as many as are said, or all.
pub fn store_words(words: usize, all: usize) -> usize
    ensures { result ≡ min words all }
{
    words.min(all)
}

// What is refused before the start is looked at. The index has `size` words.
fn check_indexed_words(
    table: &[u32],
    store: &[u32],
    bindings: &[u32],
    mark: u32,
    size: usize,
    signature: Option<&[u32]>,
) -> Result<(), Refusal>
    ensures { (x : List ℕ) → length x ≡ size → checked_of result
        ≡ indexed_words_refused_by ours (lent_signature signature.entry) table.now store.now
        bindings.now mark x }
{
    if size / 2 < store.len() / 8 {
        return Err(Refusal::Sizes);
    }
    check_words(table, store, bindings, mark, signature)?;
    match first_twin(store, mark) {
        Some(k) => Err(Refusal::Twin(k)),
        None => Ok(()),
    }
}

// What a run with an index refuses.
pub fn check_indexed_run(
    table: &[u32],
    store: &[u32],
    bindings: &[u32],
    mark: u32,
    start: u32,
    subject: u32,
    size: usize,
    signature: Option<&[u32]>,
) -> Result<(), Refusal>
    ensures { (x : List ℕ) (units : ℕ) → length x ≡ size → checked_of result
        ≡ indexed_refused (lent_signature signature.entry)
        (input table.now store.now bindings.now mark start subject units) x }
{
    check_indexed_words(table, store, bindings, mark, size, signature)?;
    if !start_fits(table, bindings, mark, start, subject) {
        return Err(Refusal::Start);
    }
    Ok(())
}

// What a call over many subjects with an index refuses, whose list of results has n words.
pub(crate) fn check_indexed_many(
    table: &[u32],
    store: &[u32],
    bindings: &[u32],
    mark: u32,
    start: u32,
    subjects: &[u32],
    n: usize,
    size: usize,
    signature: Option<&[u32]>,
) -> Result<(), Refusal>
    ensures { (results x : List ℕ) (units : ℕ) → length results ≡ n → length x ≡ size → checked_of result
        ≡ indexed_many_refused (lent_signature signature.entry)
        (handed table.now store.now bindings.now mark start subjects.now units results) x }
{
    if n / 5 != subjects.len() || n % 5 != 0 {
        return Err(Refusal::Sizes);
    }
    check_indexed_words(table, store, bindings, mark, size, signature)?;
    if !starts_fit(table, bindings, mark, start, subjects) {
        return Err(Refusal::Start);
    }
    Ok(())
}
