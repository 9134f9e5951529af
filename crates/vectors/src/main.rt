// Executes the cases of standard input, and writes what each call gave back. A case is a line TAG LENGTH, then LENGTH bytes, at
// most 131,072, and a line feed. Where the input is not of this form, or ends inside a case, the last line is `# broken`.
//
//     t  check_table     s  check_store     f  free_variables     c  collect     j  answer_job     a  translate     w  write_rule
//     r  run             m  run_many        p  start_run and step_run     v  run_counted
//     g, n, q, x         the same with a signature
//     i  run_indexed     k  run_many_indexed     y  run_indexed_counted     z  run_indexed_counted with a signature
//
// The bytes of `j` are a job's text. Those of the others say which memory is lent (memory.rt of the crate cases), and end in a
// label. A further call takes a tag and a function in plain_cases, and tools/cases writes its cases.
#![tactic(auto)]

use cases::input::{next_byte, read_line};
use cases::numbers::Numbers;
use requests::answer_case;
use std::io;
use std::io::{Read, Write};

mod counted;
mod requests;

// Executes the case of a line, whose bytes come after it: whether there is one.
fn read_case(
    reader: &mut impl Read,
    out: &mut impl Write,
    line: &[u8; 16],
    text: &mut [u8],
    table: &mut [u32],
    store: &mut [u32],
    bindings: &mut [u32],
) -> io::Result<bool> {
    let n = Numbers { rest: &line[2..] }.number() as usize;
    if text.len() < n {
        return Ok(false);
    }
    let text = &mut text[..n];
    if reader.read_exact(text).is_err() || next_byte(reader) != Some(b'\n') {
        return Ok(false);
    }
    answer_case(out, line[0], text, table, store, bindings)
}

// Executes the next case, and says whether to go on.
fn next_case(
    reader: &mut impl Read,
    out: &mut impl Write,
    text: &mut [u8],
    table: &mut [u32],
    store: &mut [u32],
    bindings: &mut [u32],
) -> io::Result<bool> {
    let mut line = [0u8; 16];
    if read_line(reader, &mut line) == 0 {
        return Ok(false);
    }
    let known = read_case(reader, out, &line, text, table, store, bindings)?;
    if !known {
        out.write_all(b"# broken\n")?;
    }
    Ok(known)
}

// The cases of standard input. Nothing says that the input ends, so the turns are counted up to a number that no run reaches.
fn answer_all(
    reader: &mut impl Read,
    out: &mut impl Write,
    text: &mut [u8],
    table: &mut [u32],
    store: &mut [u32],
    bindings: &mut [u32],
) -> io::Result<()> {
    for _ in 0..u64::MAX {
        if !next_case(reader, out, text, table, store, bindings)? {
            break;
        }
    }
    Ok(())
}

// The arrays are one row longer than the longest that is not refused; behind a table there is room for a signature.
fn main(rt: HostRuntime) -> io::Result<()> {
    let mut text = [0u8; 131072];
    let mut table = [0u32; 98320];
    // Four megabytes, on the heap: beside them the deep runs pass the stack of a program that Rattle's own compiler made.
    let mut store = vec![in rt.alloc(); 0u32; 1048584]?;
    let mut bindings = [0u32; 80];
    answer_all(
        &mut rt.reader(),
        &mut io::writer(&rt),
        &mut text,
        &mut table,
        &mut store,
        &mut bindings,
    )
}
