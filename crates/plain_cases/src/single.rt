// The checks, the question of free variables, a run and a collection.
use calls::five_numbers;
use cases::memory::Given;
use cases::show::{show_memory, show_numbers, show_set};
use checks::entries::check_table;
use checks::nodes::check_store;
use checks::refusal::numbers_of;
use collect::{collect, four_numbers};
use free::{free_variables, three_numbers};
use indexed::run::run_indexed;
use running::run;
use std::io;
use std::io::Write;

// The run of a tag: with the signature that stands behind the table's first words for `g`, with the index that stands behind the store's
// for `i`. Whether there are so many words.
pub(crate) fn call_run(
    out: &mut impl Write,
    tag: u8,
    given: &Given,
    table: &mut [u32],
    store: &mut [u32],
    bindings: &mut [u32],
) -> io::Result<bool> {
    let Some((table, signature)) = given.table_of(table, tag == b'g') else {
        return Ok(false);
    };
    let Given {
        mark,
        start,
        subject,
        units,
        argument,
        ..
    } = *given;
    let r = if tag == b'i' {
        run_indexed(
            table,
            store,
            argument as usize,
            bindings,
            mark,
            start,
            subject,
            units,
            signature,
        )
    } else {
        run(
            table, store, bindings, mark, start, subject, units, signature,
        )
    };
    show_numbers(out, &five_numbers(r, subject, mark))?;
    show_memory(out, store, bindings)?;
    Ok(true)
}

// A collection, with the table as its work list.
pub(crate) fn call_collect(
    out: &mut impl Write,
    given: &Given,
    work: &mut [u32],
    store: &mut [u32],
    bindings: &mut [u32],
) -> io::Result<bool> {
    let r = collect(store, bindings, work, given.mark, given.subject);
    show_numbers(out, &four_numbers(r, given.subject, given.mark))?;
    show_memory(out, store, bindings)?;
    out.write_all(b" :")?;
    show_set(out, work)?;
    Ok(true)
}

// Prints what the question of a tag answers, which changes no word: whether the tag has one.
pub(crate) fn call_question(
    out: &mut impl Write,
    tag: u8,
    given: &Given,
    table: &[u32],
    store: &[u32],
) -> io::Result<bool> {
    match tag {
        b't' => show_numbers(out, &numbers_of(check_table(table)))?,
        b's' => show_numbers(out, &numbers_of(check_store(store, given.mark)))?,
        b'f' => show_numbers(out, &three_numbers(free_variables(table, given.start)))?,
        _ => return Ok(false),
    }
    Ok(true)
}
