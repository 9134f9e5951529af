// Where the units go: a run that counts the visits of every entry. Four words of 64 bits for each entry of the table:
// visits, successes, failures, and visits in flight at a cut-off. A run adds to them.
ghost use Rattle.std.specs.Prelude.{◌≡◌, take, drop};
ghost use Rattle.std.proofs.Math.Option.{none, some};
ghost use Rattle.calls.specs.Run.{input};
ghost use Rattle.tallying.specs.Added.{counted_at_return, counted_outcome};
ghost use Rattle.counting.specs.Counted.{counted_of, indexed_counted_at_return, indexed_counted_of};
ghost use Rattle.marshtrundle.specs.Exported.{seven};

use checks::refusal::Refusal;
use counting::{run_counted, run_indexed_counted};
use tallying::RanCounted;

// What a counted run comes to, as an array; subject and mark as given and no visits where it is refused.
fn seven_numbers(r: Result<RanCounted, Refusal>, subject: u32, mark: u32) -> [u32; 7]
    ensures { seven result ≡ counted_outcome r subject mark }
{
    match r {
        Ok(counted) => {
            let [answer, place, k, m, units] = counted.ran.numbers();
            [
                answer,
                place,
                k,
                m,
                units,
                counted.seen.patterns,
                counted.seen.pairs,
            ]
        }
        Err(e) => [e.answer(), e.place(), subject, mark, 0, 0, 0],
    }
}

// The run: answer, place, subject, mark and units used, then the visits of patterns and of pairs.
pub fn marshtrundle_run_counted(
    table: &[u32],
    store: &mut [u32],
    bindings: &mut [u32],
    mark: u32,
    start: u32,
    subject: u32,
    units: u32,
    counts: &mut [u64],
    numbers: &mut [u32; 7],
)
    ensures { counted_at_return (seven numbers.new) store.new bindings.new counts.new
        ≡ counted_of none (input table.now store.old bindings.old mark start subject units) counts.old }
{
    let r = run_counted(
        table, store, bindings, mark, start, subject, units, counts, None,
    );
    *numbers = seven_numbers(r, subject, mark);
}

// The same with a signature.
pub fn marshtrundle_run_counted_signed(
    table: &[u32],
    store: &mut [u32],
    bindings: &mut [u32],
    mark: u32,
    start: u32,
    subject: u32,
    units: u32,
    counts: &mut [u64],
    signature: &[u32],
    numbers: &mut [u32; 7],
)
    ensures { counted_at_return (seven numbers.new) store.new bindings.new counts.new
        ≡ counted_of (some signature.now) (input table.now store.old bindings.old mark start subject units) counts.old }
{
    let r = run_counted(
        table,
        store,
        bindings,
        mark,
        start,
        subject,
        units,
        counts,
        Some(signature),
    );
    *numbers = seven_numbers(r, subject, mark);
}

// The run with an index: the first `words` of `lent` are the store's, and the rest is the index.
pub fn marshtrundle_run_indexed_counted(
    table: &[u32],
    lent: &mut [u32],
    words: u32,
    bindings: &mut [u32],
    mark: u32,
    start: u32,
    subject: u32,
    units: u32,
    counts: &mut [u64],
    numbers: &mut [u32; 7],
)
    ensures { indexed_counted_at_return (seven numbers.new) (take words lent.new) bindings.new counts.new (drop words lent.new)
        ≡ indexed_counted_of none (input table.now (take words lent.old) bindings.old mark start subject units)
        (drop words lent.old) counts.old }
{
    let r = run_indexed_counted(
        table,
        lent,
        words as usize,
        bindings,
        mark,
        start,
        subject,
        units,
        counts,
        None,
    );
    *numbers = seven_numbers(r, subject, mark);
}

// The same with a signature.
pub fn marshtrundle_run_indexed_counted_signed(
    table: &[u32],
    lent: &mut [u32],
    words: u32,
    bindings: &mut [u32],
    mark: u32,
    start: u32,
    subject: u32,
    units: u32,
    counts: &mut [u64],
    signature: &[u32],
    numbers: &mut [u32; 7],
)
    ensures { indexed_counted_at_return (seven numbers.new) (take words lent.new) bindings.new counts.new (drop words lent.new)
        ≡ indexed_counted_of (some signature.now) (input table.now (take words lent.old) bindings.old mark start subject units)
        (drop words lent.old) counts.old }
{
    let r = run_indexed_counted(
        table,
        lent,
        words as usize,
        bindings,
        mark,
        start,
        subject,
        units,
        counts,
        Some(signature),
    );
    *numbers = seven_numbers(r, subject, mark);
}
