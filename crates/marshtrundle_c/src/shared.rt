// One node for one term, from the archive: the runs of a store that has an index behind its words.
ghost use Rattle.std.specs.Prelude.{◌≡◌, take, drop};
ghost use Rattle.std.proofs.Math.Option.{none, some};
ghost use Rattle.calls.specs.Run.{input};
ghost use Rattle.calls.specs.Many.{handed};
ghost use Rattle.calls.specs.Indexed.{indexed_at_return, indexed_of, indexed_many_at_return, indexed_many_of};
ghost use Rattle.marshtrundle.specs.Exported.{two, five};

// The run: answer, place, subject, mark and units used. The first `words` of `lent` are the store's, and the rest is the index.
#[unsafe(no_mangle)]
pub extern "C" fn marshtrundle_run_indexed(
    table: &[u32],
    lent: &mut [u32],
    words: u32,
    bindings: &mut [u32],
    mark: u32,
    start: u32,
    subject: u32,
    units: u32,
    numbers: &mut [u32; 5],
)
    ensures { indexed_at_return (five numbers.new) (take words lent.new) bindings.new (drop words lent.new)
        ≡ indexed_of none (input table.now (take words lent.old) bindings.old mark start subject units) (drop words lent.old) }
{
    marshtrundle::shared::marshtrundle_run_indexed(
        table, lent, words, bindings, mark, start, subject, units, numbers,
    );
}

// The same with a signature.
#[unsafe(no_mangle)]
pub extern "C" fn marshtrundle_run_indexed_signed(
    table: &[u32],
    lent: &mut [u32],
    words: u32,
    bindings: &mut [u32],
    mark: u32,
    start: u32,
    subject: u32,
    units: u32,
    signature: &[u32],
    numbers: &mut [u32; 5],
)
    ensures { indexed_at_return (five numbers.new) (take words lent.new) bindings.new (drop words lent.new)
        ≡ indexed_of (some signature.now) (input table.now (take words lent.old) bindings.old mark start subject units) (drop words lent.old) }
{
    marshtrundle::shared::marshtrundle_run_indexed_signed(
        table, lent, words, bindings, mark, start, subject, units, signature, numbers,
    );
}

// A whole module in one call, with an index: answer and place.
#[unsafe(no_mangle)]
pub extern "C" fn marshtrundle_run_many_indexed(
    table: &[u32],
    lent: &mut [u32],
    words: u32,
    bindings: &[u32],
    mark: u32,
    start: u32,
    subjects: &[u32],
    units: u32,
    results: &mut [u32],
    numbers: &mut [u32; 2],
)
    ensures { indexed_many_at_return (two numbers.new) results.new (take words lent.new) (drop words lent.new)
        ≡ indexed_many_of none (handed table.now (take words lent.old) bindings.now mark start
        subjects.now units results.old) (drop words lent.old) }
{
    marshtrundle::shared::marshtrundle_run_many_indexed(
        table, lent, words, bindings, mark, start, subjects, units, results, numbers,
    );
}

// The same with a signature.
#[unsafe(no_mangle)]
pub extern "C" fn marshtrundle_run_many_indexed_signed(
    table: &[u32],
    lent: &mut [u32],
    words: u32,
    bindings: &[u32],
    mark: u32,
    start: u32,
    subjects: &[u32],
    units: u32,
    results: &mut [u32],
    signature: &[u32],
    numbers: &mut [u32; 2],
)
    ensures { indexed_many_at_return (two numbers.new) results.new (take words lent.new) (drop words lent.new)
        ≡ indexed_many_of (some signature.now) (handed table.now (take words lent.old)
        bindings.now mark start subjects.now units results.old) (drop words lent.old) }
{
    marshtrundle::shared::marshtrundle_run_many_indexed_signed(
        table, lent, words, bindings, mark, start, subjects, units, results, signature, numbers,
    );
}
