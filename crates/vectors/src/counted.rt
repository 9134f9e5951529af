// A run with counts.
use calls::five_numbers;
use cases::counts::make_counts;
use cases::memory::Given;
use cases::numbers::Numbers;
use cases::show::{show_lists, show_numbers};
use checks::refusal::Refusal;
use counting::{run_counted, run_indexed_counted};
use std::io;
use std::io::Write;
use tallying::RanCounted;

// Prints what a run with counts returns, with how many patterns and pairs were seen.
fn show_counted(
    out: &mut impl Write,
    r: Result<RanCounted, Refusal>,
    given: &Given,
) -> io::Result<()> {
    let (ran, seen) = match r {
        Ok(counted) => (Ok(counted.ran), [counted.seen.patterns, counted.seen.pairs]),
        Err(e) => (Err(e), [0, 0]),
    };
    show_numbers(out, &five_numbers(ran, given.subject, given.mark))?;
    show_numbers(out, &seen)
}

// The run of a tag: with the signature that stands behind the table's first words for `x` and `z`, with the index that stands behind the
// store's first `own` words for `y` and `z`. Whether there are so many words.
fn run_tag(
    out: &mut impl Write,
    tag: u8,
    given: &Given,
    own: usize,
    table: &mut [u32],
    store: &mut [u32],
    bindings: &mut [u32],
    counts: &mut [u64],
) -> io::Result<bool> {
    let signed = matches!(tag, b'x' | b'z');
    let Some((table, signature)) = given.table_of(table, signed) else {
        return Ok(false);
    };
    let Given {
        mark,
        start,
        subject,
        units,
        ..
    } = *given;
    let r = if let b'y' | b'z' = tag {
        run_indexed_counted(
            table, store, own, bindings, mark, start, subject, units, counts, signature,
        )
    } else {
        run_counted(
            table, store, bindings, mark, start, subject, units, counts, signature,
        )
    };
    show_counted(out, r, given)?;
    show_lists(out, store, bindings, counts)?;
    Ok(true)
}

// The same with a list of counts of its own, more than those of 4,096 entries, of which the case asks for a part; the label behind its
// counts is printed first. Whether it asks for no more than there is.
pub(crate) fn call_counted(
    out: &mut impl Write,
    tag: u8,
    numbers: &mut Numbers,
    given: &Given,
    table: &mut [u32],
    store: &mut [u32],
    bindings: &mut [u32],
) -> io::Result<bool> {
    let mut counts = [0u64; 16400];
    let own = numbers.number() as usize;
    let k = numbers.number() as usize;
    if counts.len() < k {
        return Ok(false);
    }
    let counts = &mut counts[..k];
    make_counts(numbers, counts);
    out.write_all(numbers.rest)?;
    run_tag(out, tag, given, own, table, store, bindings, counts)
}
