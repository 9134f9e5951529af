// One node for one term: the runs of a store that has an index behind its words.
ghost use Rattle.std.specs.Prelude.{◌≡◌, take, drop};
ghost use Rattle.std.proofs.Math.Option.{none, some};
ghost use Rattle.calls.specs.Run.{input};
ghost use Rattle.calls.specs.Many.{handed};
ghost use Rattle.calls.specs.Indexed.{indexed_at_return, indexed_of, indexed_many_at_return, indexed_many_of};
ghost use Rattle.marshtrundle.specs.Exported.{two, five};

use calls::five_numbers;
use checks::refusal::numbers_of;
use indexed::run::run_indexed;
use indexed::subjects::run_many_indexed;

// The run: answer, place, subject, mark and units used. The first `words` of `lent` are the store's, and the rest is the index.
pub fn marshtrundle_run_indexed(
    table: &[u32],
    lent: &mut [u32],
    words: u32,
    bindings: &mut [u32],
    mark: u32,
    start: u32,
    subject: u32,
    units: u32,
    numbers: &mut [u32; 5],
)
    ensures { indexed_at_return (five numbers.new) (take words lent.new) bindings.new (drop words lent.new)
        ≡ indexed_of none (input table.now (take words lent.old) bindings.old mark start subject units) (drop words lent.old) }
{
    let r = run_indexed(
        table,
        lent,
        words as usize,
        bindings,
        mark,
        start,
        subject,
        units,
        None,
    );
    *numbers = five_numbers(r, subject, mark);
}

// The same with a signature.
pub fn marshtrundle_run_indexed_signed(
    table: &[u32],
    lent: &mut [u32],
    words: u32,
    bindings: &mut [u32],
    mark: u32,
    start: u32,
    subject: u32,
    units: u32,
    signature: &[u32],
    numbers: &mut [u32; 5],
)
    ensures { indexed_at_return (five numbers.new) (take words lent.new) bindings.new (drop words lent.new)
        ≡ indexed_of (some signature.now) (input table.now (take words lent.old) bindings.old mark start subject units) (drop words lent.old) }
{
    let r = run_indexed(
        table,
        lent,
        words as usize,
        bindings,
        mark,
        start,
        subject,
        units,
        Some(signature),
    );
    *numbers = five_numbers(r, subject, mark);
}

// A whole module in one call, with an index: answer and place.
pub fn marshtrundle_run_many_indexed(
    table: &[u32],
    lent: &mut [u32],
    words: u32,
    bindings: &[u32],
    mark: u32,
    start: u32,
    subjects: &[u32],
    units: u32,
    results: &mut [u32],
    numbers: &mut [u32; 2],
)
    ensures { indexed_many_at_return (two numbers.new) results.new (take words lent.new) (drop words lent.new)
        ≡ indexed_many_of none (handed table.now (take words lent.old) bindings.now mark start
        subjects.now units results.old) (drop words lent.old) }
{
    let r = run_many_indexed(
        table,
        lent,
        words as usize,
        bindings,
        mark,
        start,
        subjects,
        units,
        results,
        None,
    );
    *numbers = numbers_of(r);
}

// The same with a signature.
pub fn marshtrundle_run_many_indexed_signed(
    table: &[u32],
    lent: &mut [u32],
    words: u32,
    bindings: &[u32],
    mark: u32,
    start: u32,
    subjects: &[u32],
    units: u32,
    results: &mut [u32],
    signature: &[u32],
    numbers: &mut [u32; 2],
)
    ensures { indexed_many_at_return (two numbers.new) results.new (take words lent.new) (drop words lent.new)
        ≡ indexed_many_of (some signature.now) (handed table.now (take words lent.old)
        bindings.now mark start subjects.now units results.old) (drop words lent.old) }
{
    let r = run_many_indexed(
        table,
        lent,
        words as usize,
        bindings,
        mark,
        start,
        subjects,
        units,
        results,
        Some(signature),
    );
    *numbers = numbers_of(r);
}
