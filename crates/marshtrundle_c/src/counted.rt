// Where the units go, from the archive: a run that counts the visits of every entry.
ghost use Rattle.std.specs.Prelude.{◌≡◌, take, drop};
ghost use Rattle.std.proofs.Math.Option.{none, some};
ghost use Rattle.calls.specs.Run.{input};
ghost use Rattle.tallying.specs.Added.{counted_at_return};
ghost use Rattle.counting.specs.Counted.{counted_of, indexed_counted_at_return, indexed_counted_of};
ghost use Rattle.marshtrundle.specs.Exported.{seven};

// The run: answer, place, subject, mark and units used, then the visits of patterns and of pairs.
#[unsafe(no_mangle)]
pub extern "C" fn marshtrundle_run_counted(
    table: &[u32],
    store: &mut [u32],
    bindings: &mut [u32],
    mark: u32,
    start: u32,
    subject: u32,
    units: u32,
    counts: &mut [u64],
    numbers: &mut [u32; 7],
)
    ensures { counted_at_return (seven numbers.new) store.new bindings.new counts.new
        ≡ counted_of none (input table.now store.old bindings.old mark start subject units) counts.old }
{
    marshtrundle::counted::marshtrundle_run_counted(
        table, store, bindings, mark, start, subject, units, counts, numbers,
    );
}

// The same with a signature.
#[unsafe(no_mangle)]
pub extern "C" fn marshtrundle_run_counted_signed(
    table: &[u32],
    store: &mut [u32],
    bindings: &mut [u32],
    mark: u32,
    start: u32,
    subject: u32,
    units: u32,
    counts: &mut [u64],
    signature: &[u32],
    numbers: &mut [u32; 7],
)
    ensures { counted_at_return (seven numbers.new) store.new bindings.new counts.new
        ≡ counted_of (some signature.now) (input table.now store.old bindings.old mark start subject units) counts.old }
{
    marshtrundle::counted::marshtrundle_run_counted_signed(
        table, store, bindings, mark, start, subject, units, counts, signature, numbers,
    );
}

// The run with an index: the first `words` of `lent` are the store's, and the rest is the index.
#[unsafe(no_mangle)]
pub extern "C" fn marshtrundle_run_indexed_counted(
    table: &[u32],
    lent: &mut [u32],
    words: u32,
    bindings: &mut [u32],
    mark: u32,
    start: u32,
    subject: u32,
    units: u32,
    counts: &mut [u64],
    numbers: &mut [u32; 7],
)
    ensures { indexed_counted_at_return (seven numbers.new) (take words lent.new) bindings.new counts.new (drop words lent.new)
        ≡ indexed_counted_of none (input table.now (take words lent.old) bindings.old mark start subject units)
        (drop words lent.old) counts.old }
{
    marshtrundle::counted::marshtrundle_run_indexed_counted(
        table, lent, words, bindings, mark, start, subject, units, counts, numbers,
    );
}

// The same with a signature.
#[unsafe(no_mangle)]
pub extern "C" fn marshtrundle_run_indexed_counted_signed(
    table: &[u32],
    lent: &mut [u32],
    words: u32,
    bindings: &mut [u32],
    mark: u32,
    start: u32,
    subject: u32,
    units: u32,
    counts: &mut [u64],
    signature: &[u32],
    numbers: &mut [u32; 7],
)
    ensures { indexed_counted_at_return (seven numbers.new) (take words lent.new) bindings.new counts.new (drop words lent.new)
        ≡ indexed_counted_of (some signature.now) (input table.now (take words lent.old) bindings.old mark start subject units)
        (drop words lent.old) counts.old }
{
    marshtrundle::counted::marshtrundle_run_indexed_counted_signed(
        table, lent, words, bindings, mark, start, subject, units, counts, signature, numbers,
    );
}
