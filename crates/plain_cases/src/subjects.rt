// A call over many subjects.
use cases::memory::Given;
use cases::numbers::Numbers;
use cases::show::{show_memory, show_numbers};
use checks::refusal::numbers_of;
use indexed::subjects::run_many_indexed;
use many::run_many;
use std::io;
use std::io::Write;

// The call of a tag, with the signature that stands behind the table's first words for `n`, with the index that stands behind the store's
// for `k`: its two numbers, of no call where there are less words.
fn run_subjects(
    tag: u8,
    given: &Given,
    table: &mut [u32],
    store: &mut [u32],
    bindings: &mut [u32],
    subjects: &[u32],
    results: &mut [u32],
) -> [u32; 2] {
    let Some((table, signature)) = given.table_of(table, tag == b'n') else {
        return [4294967295, 0];
    };
    let Given {
        mark,
        start,
        units,
        argument,
        ..
    } = *given;
    let r = if tag == b'k' {
        run_many_indexed(
            table,
            store,
            argument as usize,
            bindings,
            mark,
            start,
            subjects,
            units,
            results,
            signature,
        )
    } else {
        run_many(
            table, store, bindings, mark, start, subjects, units, results, signature,
        )
    };
    numbers_of(r)
}

// Reads the subjects, prints the label behind them, makes the call and prints what it gives back, every word of the result list, and the
// memory that it leaves.
fn call_lists(
    out: &mut impl Write,
    tag: u8,
    numbers: &mut Numbers,
    given: &Given,
    table: &mut [u32],
    store: &mut [u32],
    bindings: &mut [u32],
    subjects: &mut [u32],
    results: &mut [u32],
) -> io::Result<()> {
    numbers.read(subjects);
    out.write_all(numbers.rest)?;
    show_numbers(
        out,
        &run_subjects(tag, given, table, store, bindings, subjects, results),
    )?;
    show_numbers(out, results)?;
    show_memory(out, store, bindings)
}

// The same with lists of its own, of which the case asks for a part: room for 1,024 subjects, and for the results of one more. Whether it
// asks for no more than there is.
pub(crate) fn call_many(
    out: &mut impl Write,
    tag: u8,
    numbers: &mut Numbers,
    given: &Given,
    table: &mut [u32],
    store: &mut [u32],
    bindings: &mut [u32],
) -> io::Result<bool> {
    let mut subjects = [0u32; 1024];
    let mut results = [4294967295u32; 5128];
    let k = given.subject as usize;
    let r = numbers.number() as usize;
    if subjects.len() < k || results.len() < r {
        return Ok(false);
    }
    call_lists(
        out,
        tag,
        numbers,
        given,
        table,
        store,
        bindings,
        &mut subjects[..k],
        &mut results[..r],
    )?;
    Ok(true)
}
