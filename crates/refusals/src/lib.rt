// What a run refuses, in the order of documents 01 and 02: 2, 13 to 17, 4, 10, 11, 5. Nothing is written here.
#![tactic(auto)]

ghost use Rattle.std.specs.Prelude.{◌≡◌, List, ℕ, ◌≤◌, length};
ghost use Rattle.checks.specs.Numbers.{checked_of};
ghost use Rattle.calls.specs.Many.{handed, many_refused};
ghost use Rattle.calls.specs.Refused.{sizes_fit, is_start, start_fits, subjects_below, starts_fit, lent_signature, lent_fits, signature_obeyed, words_refused, refused_with};

use checks::bindings::bindings_below;
use checks::entries::{check_table, kind_of, table_length_fits};
use checks::kinds::{Sort, VARIABLES, sort_of};
use checks::nodes::{check_store, store_length_fits};
use checks::refusal::Refusal;
use checks::signature::{check_entries, check_nodes, signature_fits};

// The lengths, and the mark within the store.
#[tactic(auto, unfolding(calls::specs::Refused::sizes_fit_by))]
fn sizes_fit(table: &[u32], store: &[u32], bindings: &[u32], mark: u32) -> bool
    ensures { result ≡ sizes_fit table.now store.now bindings.now mark }
{
    table_length_fits(table.len())
        && store_length_fits(store.len())
        && bindings.len() == VARIABLES
        && mark as usize <= store.len() / 8
}

// The start is a strategy of the table.
#[tactic(auto, unfolding(calls::specs::Refused::is_start))]
fn is_start(table: &[u32], start: u32) -> bool
    ensures { result ≡ is_start table.now start }
{
    (start as usize) < table.len() / 8 && sort_of(kind_of(table, start)) == Sort::Strategy
}

// Every subject is below the mark.
fn subjects_below(subjects: &[u32], mark: u32) -> bool
    ensures { result ≡ subjects_below subjects.now mark }
{
    subjects.iter().all(|subject| *subject < mark)
}

// The start is a strategy of the table, every subject lies below the mark, and so do the bindings.
#[tactic(auto, unfolding(calls::specs::Refused::starts_fit))]
pub fn starts_fit(table: &[u32], bindings: &[u32], mark: u32, start: u32, subjects: &[u32]) -> bool
    ensures { result ≡ starts_fit table.now bindings.now mark start subjects.now }
{
    is_start(table, start) && subjects_below(subjects, mark) && bindings_below(bindings, mark)
}

// The same for one subject.
#[tactic(auto, using(calls::proofs::Starts::starts_fit_one))]
pub fn start_fits(table: &[u32], bindings: &[u32], mark: u32, start: u32, subject: u32) -> bool
    ensures { result ≡ start_fits table.now bindings.now mark start subject }
{
    starts_fit(table, bindings, mark, start, &[subject])
}

// A lent signature fits; where none is lent there is nothing to fit.
fn lent_fits(signature: Option<&[u32]>) -> bool
    ensures { result ≡ lent_fits (lent_signature signature.entry) }
{
    signature.is_none_or(|words| signature_fits(words))
}

// The entries and the nodes below the mark obey a lent signature.
fn check_obeyed(
    table: &[u32],
    store: &[u32],
    mark: u32,
    signature: Option<&[u32]>,
) -> Result<(), Refusal>
    requires { length table.now ≤ 32768 }
    ensures { checked_of result ≡ signature_obeyed (lent_signature signature.entry) table.now store.now mark }
{
    let Some(words) = signature else {
        return Ok(());
    };
    check_entries(words, table)?;
    check_nodes(words, store, mark)
}

// What every call that runs refuses before it looks at its start.
pub fn check_words(
    table: &[u32],
    store: &[u32],
    bindings: &[u32],
    mark: u32,
    signature: Option<&[u32]>,
) -> Result<(), Refusal>
    ensures { checked_of result ≡ words_refused (lent_signature signature.entry) table.now store.now bindings.now mark }
{
    if !sizes_fit(table, store, bindings, mark) || !lent_fits(signature) {
        return Err(Refusal::Sizes);
    }
    check_table(table)?;
    check_store(store, mark)?;
    check_obeyed(table, store, mark, signature)
}

// What a run refuses.
pub fn check_run(
    table: &[u32],
    store: &[u32],
    bindings: &[u32],
    mark: u32,
    start: u32,
    subject: u32,
    signature: Option<&[u32]>,
) -> Result<(), Refusal>
    ensures { checked_of result ≡ refused_with (lent_signature signature.entry) table.now store.now bindings.now mark start subject }
{
    check_words(table, store, bindings, mark, signature)?;
    if !start_fits(table, bindings, mark, start, subject) {
        return Err(Refusal::Start);
    }
    Ok(())
}

// What a call over many subjects refuses, whose list of results has n words.
pub fn check_many(
    table: &[u32],
    store: &[u32],
    bindings: &[u32],
    mark: u32,
    start: u32,
    subjects: &[u32],
    n: usize,
    signature: Option<&[u32]>,
) -> Result<(), Refusal>
    ensures { (results : List ℕ) (units : ℕ) → length results ≡ n → checked_of result
        ≡ many_refused (lent_signature signature.entry)
        (handed table.now store.now bindings.now mark start subjects.now units results) }
{
    if n / 5 != subjects.len() || n % 5 != 0 {
        return Err(Refusal::Sizes);
    }
    check_words(table, store, bindings, mark, signature)?;
    if !starts_fit(table, bindings, mark, start, subjects) {
        return Err(Refusal::Start);
    }
    Ok(())
}
