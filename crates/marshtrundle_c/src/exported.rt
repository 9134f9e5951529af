// What a program in C or Rust calls, from the archive: a run, a module, a collection, the checks, and rules as text. Each call is that of
// the library marshtrundle, with its clauses, under the name that the linker finds. A slice is a pointer and a number of words, or of bytes
// where it is text.
ghost use Rattle.std.specs.Prelude.{◌≡◌};
ghost use Rattle.std.proofs.Math.Option.{none, some};
ghost use Rattle.checks.specs.Checked.{table_checked, store_checked};
ghost use Rattle.collect.specs.Collected.{lent, at_end, collected_of};
ghost use Rattle.free.specs.Answered.{Answered};
ghost use Rattle.calls.specs.Run.{input, at_return, run_with, run_of};
ghost use Rattle.calls.specs.Many.{handed, many_at_return, many_of};
ghost use Rattle.translate.specs.Added.{Translating};
ghost use Rattle.write_rules.specs.Written.{RuleWritten};
ghost use Rattle.marshtrundle.specs.Exported.{two, three, four, five, translation, writing};

// The run: answer, place, subject, mark and units used.
#[unsafe(no_mangle)]
pub extern "C" fn marshtrundle_run(
    table: &[u32],
    store: &mut [u32],
    bindings: &mut [u32],
    mark: u32,
    start: u32,
    subject: u32,
    units: u32,
    numbers: &mut [u32; 5],
)
    ensures { at_return (five numbers.new) store.new bindings.new
        ≡ run_of (input table.now store.old bindings.old mark start subject units) }
{
    marshtrundle::exported::marshtrundle_run(
        table, store, bindings, mark, start, subject, units, numbers,
    );
}

// The run with a signature: the same five numbers.
#[unsafe(no_mangle)]
pub extern "C" fn marshtrundle_run_signed(
    table: &[u32],
    store: &mut [u32],
    bindings: &mut [u32],
    mark: u32,
    start: u32,
    subject: u32,
    units: u32,
    signature: &[u32],
    numbers: &mut [u32; 5],
)
    ensures { at_return (five numbers.new) store.new bindings.new
        ≡ run_with (some signature.now) (input table.now store.old bindings.old mark start
        subject units) }
{
    marshtrundle::exported::marshtrundle_run_signed(
        table, store, bindings, mark, start, subject, units, signature, numbers,
    );
}

// A whole module in one call: answer and place. Five numbers for each subject go into `results`.
#[unsafe(no_mangle)]
pub extern "C" fn marshtrundle_run_many(
    table: &[u32],
    store: &mut [u32],
    bindings: &[u32],
    mark: u32,
    start: u32,
    subjects: &[u32],
    units: u32,
    results: &mut [u32],
    numbers: &mut [u32; 2],
)
    ensures { many_at_return (two numbers.new) results.new store.new
        ≡ many_of none (handed table.now store.old bindings.now mark start subjects.now units
        results.old) }
{
    marshtrundle::exported::marshtrundle_run_many(
        table, store, bindings, mark, start, subjects, units, results, numbers,
    );
}

// The same with a signature.
#[unsafe(no_mangle)]
pub extern "C" fn marshtrundle_run_many_signed(
    table: &[u32],
    store: &mut [u32],
    bindings: &[u32],
    mark: u32,
    start: u32,
    subjects: &[u32],
    units: u32,
    results: &mut [u32],
    signature: &[u32],
    numbers: &mut [u32; 2],
)
    ensures { many_at_return (two numbers.new) results.new store.new
        ≡ many_of (some signature.now) (handed table.now store.old bindings.now mark start
        subjects.now units results.old) }
{
    marshtrundle::exported::marshtrundle_run_many_signed(
        table, store, bindings, mark, start, subjects, units, results, signature, numbers,
    );
}

// The collection: answer, place, subject and mark.
#[unsafe(no_mangle)]
pub extern "C" fn marshtrundle_collect(
    store: &mut [u32],
    bindings: &mut [u32],
    work: &mut [u32],
    mark: u32,
    subject: u32,
    numbers: &mut [u32; 4],
)
    ensures { at_end (four numbers.new) store.new bindings.new work.new
        ≡ collected_of (lent store.old bindings.old work.old mark subject) }
{
    marshtrundle::exported::marshtrundle_collect(store, bindings, work, mark, subject, numbers);
}

// The question of free variables: answer, place and mask, as numbers of 64 bits, for the mask has so many.
#[unsafe(no_mangle)]
pub extern "C" fn marshtrundle_free_variables(table: &[u32], entry: u32, numbers: &mut [u64; 3])
    ensures { Answered table.now entry (three numbers.new) }
{
    marshtrundle::exported::marshtrundle_free_variables(table, entry, numbers);
}

// The table check: answer and place.
#[unsafe(no_mangle)]
pub extern "C" fn marshtrundle_check_table(table: &[u32], numbers: &mut [u32; 2])
    ensures { two numbers.new ≡ table_checked table.now }
{
    marshtrundle::exported::marshtrundle_check_table(table, numbers);
}

// The store check: answer and place.
#[unsafe(no_mangle)]
pub extern "C" fn marshtrundle_check_store(store: &[u32], mark: u32, numbers: &mut [u32; 2])
    ensures { two numbers.new ≡ store_checked store.now mark }
{
    marshtrundle::exported::marshtrundle_check_store(store, mark, numbers);
}

// Rules as text into a table: answer, line, field and the entries in use, as numbers of 64 bits, for a line has as many fields as it
// has room for.
#[unsafe(no_mangle)]
pub extern "C" fn marshtrundle_translate_rules(
    table: &mut [u32],
    used: u32,
    text: &[u8],
    numbers: &mut [u64; 4],
)
    ensures { Translating table.old used text.now (translation numbers.new) table.new }
{
    marshtrundle::exported::marshtrundle_translate_rules(table, used, text, numbers);
}

// A rule of a table as a line of text: answer, place and length, as numbers of 64 bits.
#[unsafe(no_mangle)]
pub extern "C" fn marshtrundle_write_rule(
    table: &[u32],
    used: u32,
    entry: u32,
    buffer: &mut [u8],
    numbers: &mut [u64; 3],
)
    ensures { RuleWritten table.now used entry buffer.old (writing numbers.new) buffer.new }
{
    marshtrundle::exported::marshtrundle_write_rule(table, used, entry, buffer, numbers);
}
