// The translator of rules and the writer of one.
use cases::memory::{Given, put_bytes, put_words};
use cases::show::{show_numbers, show_slice};
use check_rules::check::four_numbers;
use std::io;
use std::io::Write;
use translate::translate::translate;
use write_rules::rule::{three_numbers, write_rule};

// The rules of a text, behind which the label stands, and the table that the translator leaves: whether the text is so long.
pub(crate) fn call_translate(
    out: &mut impl Write,
    rest: &[u8],
    given: &Given,
    table: &mut [u32],
) -> io::Result<bool> {
    let k = given.start as usize;
    if rest.len() < k {
        return Ok(false);
    }
    let (text, label) = rest.split_at(k);
    out.write_all(label)?;
    let r = translate(table, given.subject, text);
    show_numbers(out, &four_numbers(r, given.subject))?;
    show_slice(out, table)?;
    Ok(true)
}

// The writer into the bytes of the store's words, one in each.
fn write_bytes(
    out: &mut impl Write,
    given: &Given,
    table: &[u32],
    store: &mut [u32],
    buffer: &mut [u8],
) -> io::Result<()> {
    put_bytes(buffer, store);
    let r = write_rule(table, given.subject, given.start, buffer);
    put_words(store, buffer);
    show_numbers(out, &three_numbers(r))?;
    show_slice(out, store)
}

// The same with a buffer of its own: whether it is as long as the store.
pub(crate) fn call_write(
    out: &mut impl Write,
    given: &Given,
    table: &[u32],
    store: &mut [u32],
) -> io::Result<bool> {
    let mut buffer = [0u8; 65536];
    let k = store.len();
    if buffer.len() < k {
        return Ok(false);
    }
    write_bytes(out, given, table, store, &mut buffer[..k])?;
    Ok(true)
}
