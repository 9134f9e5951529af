// The call of each tag.
use crate::counted::call_counted;
use cases::memory::{Given, make};
use cases::numbers::Numbers;
use plain_cases::{answer_plain, answer_text};
use std::io;
use std::io::Write;
use stepped_cases::call_steps;

// Prints the label, makes the call of a case and prints what it gives back. Of a run in steps the label comes after those, of a run with
// counts after the counts.
fn answer_made(
    out: &mut impl Write,
    tag: u8,
    numbers: &mut Numbers,
    given: &Given,
    table: &mut [u32],
    store: &mut [u32],
    bindings: &mut [u32],
) -> io::Result<bool> {
    match tag {
        b'p' | b'q' => call_steps(out, numbers, given, table, store, bindings, tag == b'q'),
        b'v' | b'x' | b'y' | b'z' => call_counted(out, tag, numbers, given, table, store, bindings),
        _ => answer_plain(out, tag, numbers, given, table, store, bindings),
    }
}

// Makes the words of a case, prints its label and what its call gives back, and clears the words.
fn answer_words(
    out: &mut impl Write,
    tag: u8,
    numbers: &mut Numbers,
    given: &Given,
    table: &mut [u32],
    store: &mut [u32],
    bindings: &mut [u32],
) -> io::Result<bool> {
    make(given, numbers, table, store, bindings);
    let known = answer_made(out, tag, numbers, given, table, store, bindings)?;
    out.write_all(b"\n")?;
    table.fill(0);
    store.fill(0);
    bindings.fill(0);
    Ok(known)
}

// The same in the parts of the memory that the case asks for: whether it asks for no more than there is.
fn answer_lent(
    out: &mut impl Write,
    tag: u8,
    text: &[u8],
    table: &mut [u32],
    store: &mut [u32],
    bindings: &mut [u32],
) -> io::Result<bool> {
    let mut numbers = Numbers { rest: text };
    let given = Given::read(&mut numbers);
    if table.len() < given.table || store.len() < given.store || bindings.len() < given.bindings {
        return Ok(false);
    }
    answer_words(
        out,
        tag,
        &mut numbers,
        &given,
        &mut table[..given.table],
        &mut store[..given.store],
        &mut bindings[..given.bindings],
    )
}

// Executes a case: whether it is one.
pub(crate) fn answer_case(
    out: &mut impl Write,
    tag: u8,
    text: &[u8],
    table: &mut [u32],
    store: &mut [u32],
    bindings: &mut [u32],
) -> io::Result<bool> {
    if tag == b'j' {
        answer_text(out, text)
    } else {
        answer_lent(out, tag, text, table, store, bindings)
    }
}
