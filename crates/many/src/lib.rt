// A whole module in one call: the same start on each of a list of subjects. Table and store are checked once, the table is copied and
// hinted once, and the store is cleared once, at the end.
#![tactic(auto)]

ghost use Rattle.std.specs.Prelude.{◌≡◌, ◌+◌, ◌≤◌, length};
ghost use Rattle.std.proofs.Math.Seq.{paste};
ghost use Rattle.checks.specs.Numbers.{checked_of};
ghost use Rattle.calls.specs.Refused.{lent_signature};
ghost use Rattle.calls.specs.Many.{handed, many_at_return, many_of};

use checks::refusal::Refusal;
use loading::{load, opened};
use refusals::check_many;
use running::run_accepted;
use words::clear_from;

// The five numbers written from place `at` on, which lie inside the list.
pub fn put_five(results: &mut [u32], at: usize, numbers: [u32; 5])
    requires { at + 5 ≤ length results.old }
    ensures { results.new ≡ paste results.old at numbers 5 }
{
    results[at..at + 5].copy_from_slice(&numbers);
}

// Refused, with nothing written, or run on each subject in turn. A subject begins with the given bindings, its own units and the mark that
// the one before left; words from the mark on are of no account to it. Without subjects nothing is written. A signature that is lent may
// be empty.
pub fn run_many(
    table: &[u32],
    store: &mut [u32],
    bindings: &[u32],
    mark: u32,
    start: u32,
    subjects: &[u32],
    units: u32,
    results: &mut [u32],
    signature: Option<&[u32]>,
) -> Result<(), Refusal>
    ensures { many_at_return (checked_of result) results.new store.new
        ≡ many_of (lent_signature signature.entry) (handed table.now store.old bindings.now mark
        start subjects.now units results.old) }
{
    let listed = results.len();
    check_many(
        table, store, bindings, mark, start, subjects, listed, signature,
    )?;
    if subjects.is_empty() {
        return Ok(());
    }
    let mut code = [0u32; 32768];
    load(&mut code, table);
    let mut left = mark;
    for (j, subject) in subjects.iter().enumerate() {
        let nodes = (store.len() / 8) as u32;
        let mut st = opened(bindings, left, nodes, 0, 0);
        let r = run_accepted(&code, store, &mut st, start, *subject, units);
        left = r.mark;
        put_five(results, 5 * j, r.numbers());
    }
    clear_from(store, 8 * (left as usize));
    Ok(())
}
