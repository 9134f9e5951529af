// What a program in C or Rust calls. A slice is a pointer and a number of words, or of bytes where it is text. The numbers that come
// back go into an array that the caller lends. The contracts are those of the functions called, over that array.
ghost use Rattle.std.specs.Prelude.{◌≡◌};
ghost use Rattle.std.proofs.Math.Option.{none, some};
ghost use Rattle.checks.specs.Checked.{table_checked, store_checked};
ghost use Rattle.collect.specs.Collected.{lent, at_end, collected_of};
ghost use Rattle.free.specs.Answered.{Answered};
ghost use Rattle.calls.specs.Run.{input, at_return, run_with, run_of};
ghost use Rattle.calls.specs.Many.{handed, many_at_return, many_of};
ghost use Rattle.translate.specs.Added.{Translating};
ghost use Rattle.write_rules.specs.Written.{RuleWritten};
ghost use Rattle.marshtrundle.specs.Exported.{two, three, four, five, translation, writing};

use calls::five_numbers;
use checks::entries::check_table;
use checks::nodes::check_store;
use checks::refusal::numbers_of;
use collect::{collect, four_numbers};
use free::{free_variables, three_numbers};
use many::run_many;
use running::run;
use translate::translate::translate;
use write_rules::rule::write_rule;

// The run: answer, place, subject, mark and units used.
pub fn marshtrundle_run(
    table: &[u32],
    store: &mut [u32],
    bindings: &mut [u32],
    mark: u32,
    start: u32,
    subject: u32,
    units: u32,
    numbers: &mut [u32; 5],
)
    ensures { at_return (five numbers.new) store.new bindings.new
        ≡ run_of (input table.now store.old bindings.old mark start subject units) }
{
    let ran = run(table, store, bindings, mark, start, subject, units, None);
    *numbers = five_numbers(ran, subject, mark);
}

// The run with a signature: the same five numbers.
pub fn marshtrundle_run_signed(
    table: &[u32],
    store: &mut [u32],
    bindings: &mut [u32],
    mark: u32,
    start: u32,
    subject: u32,
    units: u32,
    signature: &[u32],
    numbers: &mut [u32; 5],
)
    ensures { at_return (five numbers.new) store.new bindings.new
        ≡ run_with (some signature.now) (input table.now store.old bindings.old mark start
        subject units) }
{
    let r = run(
        table,
        store,
        bindings,
        mark,
        start,
        subject,
        units,
        Some(signature),
    );
    *numbers = five_numbers(r, subject, mark);
}

// A whole module in one call: answer and place. Five numbers for each subject go into `results`.
pub fn marshtrundle_run_many(
    table: &[u32],
    store: &mut [u32],
    bindings: &[u32],
    mark: u32,
    start: u32,
    subjects: &[u32],
    units: u32,
    results: &mut [u32],
    numbers: &mut [u32; 2],
)
    ensures { many_at_return (two numbers.new) results.new store.new
        ≡ many_of none (handed table.now store.old bindings.now mark start subjects.now units
        results.old) }
{
    let r = run_many(
        table, store, bindings, mark, start, subjects, units, results, None,
    );
    *numbers = numbers_of(r);
}

// The same with a signature.
pub fn marshtrundle_run_many_signed(
    table: &[u32],
    store: &mut [u32],
    bindings: &[u32],
    mark: u32,
    start: u32,
    subjects: &[u32],
    units: u32,
    results: &mut [u32],
    signature: &[u32],
    numbers: &mut [u32; 2],
)
    ensures { many_at_return (two numbers.new) results.new store.new
        ≡ many_of (some signature.now) (handed table.now store.old bindings.now mark start
        subjects.now units results.old) }
{
    let r = run_many(
        table,
        store,
        bindings,
        mark,
        start,
        subjects,
        units,
        results,
        Some(signature),
    );
    *numbers = numbers_of(r);
}

// The collection: answer, place, subject and mark.
pub fn marshtrundle_collect(
    store: &mut [u32],
    bindings: &mut [u32],
    work: &mut [u32],
    mark: u32,
    subject: u32,
    numbers: &mut [u32; 4],
)
    ensures { at_end (four numbers.new) store.new bindings.new work.new
        ≡ collected_of (lent store.old bindings.old work.old mark subject) }
{
    *numbers = four_numbers(collect(store, bindings, work, mark, subject), subject, mark);
}

// The question of free variables: answer, place and mask, as numbers of 64 bits, for the mask has so many.
pub fn marshtrundle_free_variables(table: &[u32], entry: u32, numbers: &mut [u64; 3])
    ensures { Answered table.now entry (three numbers.new) }
{
    *numbers = three_numbers(free_variables(table, entry));
}

// The table check: answer and place.
pub fn marshtrundle_check_table(table: &[u32], numbers: &mut [u32; 2])
    ensures { two numbers.new ≡ table_checked table.now }
{
    *numbers = numbers_of(check_table(table));
}

// The store check: answer and place.
pub fn marshtrundle_check_store(store: &[u32], mark: u32, numbers: &mut [u32; 2])
    ensures { two numbers.new ≡ store_checked store.now mark }
{
    *numbers = numbers_of(check_store(store, mark));
}

// Rules as text into a table: answer, line, field and the entries in use, as numbers of 64 bits, for a line has as many fields as it
// has room for.
pub fn marshtrundle_translate_rules(
    table: &mut [u32],
    used: u32,
    text: &[u8],
    numbers: &mut [u64; 4],
)
    ensures { Translating table.old used text.now (translation numbers.new) table.new }
{
    *numbers = check_rules::check::four_numbers(translate(table, used, text), used);
}

// A rule of a table as a line of text: answer, place and length, as numbers of 64 bits.
pub fn marshtrundle_write_rule(
    table: &[u32],
    used: u32,
    entry: u32,
    buffer: &mut [u8],
    numbers: &mut [u64; 3],
)
    ensures { RuleWritten table.now used entry buffer.old (writing numbers.new) buffer.new }
{
    *numbers = write_rules::rule::three_numbers(write_rule(table, used, entry, buffer));
}
