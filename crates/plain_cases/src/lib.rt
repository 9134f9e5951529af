// The cases of every call but a run in steps and a run with counts.
#![tactic(auto)]

use cases::memory::Given;
use cases::numbers::Numbers;
use rule::{call_translate, call_write};
use single::{call_collect, call_question, call_run};
use std::io;
use std::io::Write;
use subjects::call_many;
use whole_job::answer_job;

mod rule;
mod single;
mod subjects;

// Prints the label, makes the call of a tag and prints what it gives back: whether the tag has a call. Of a call over many subjects the
// label comes after them, of the translator after its text.
pub fn answer_plain(
    out: &mut impl Write,
    tag: u8,
    numbers: &mut Numbers,
    given: &Given,
    table: &mut [u32],
    store: &mut [u32],
    bindings: &mut [u32],
) -> io::Result<bool> {
    if let b'm' | b'n' | b'k' = tag {
        return call_many(out, tag, numbers, given, table, store, bindings);
    }
    if tag == b'a' {
        return call_translate(out, numbers.rest, given, table);
    }
    out.write_all(numbers.rest)?;
    match tag {
        b'w' => call_write(out, given, table, store),
        b'c' => call_collect(out, given, table, store, bindings),
        b't' | b's' | b'f' => call_question(out, tag, given, table, store),
        b'r' | b'g' | b'i' => call_run(out, tag, given, table, store, bindings),
        _ => Ok(false),
    }
}

// Answers a job: a line `# LENGTH`, then the answer's text.
pub fn answer_text(out: &mut impl Write, text: &[u8]) -> io::Result<bool> {
    let mut answer = [0u8; 82944];
    let n = answer_job(text, &mut answer);
    writeln!(out, "# {n}")?;
    out.write_all(&answer[..n])?;
    Ok(true)
}
