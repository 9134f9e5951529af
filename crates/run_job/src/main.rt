// Runs one job: its text from standard input, its answer to standard output. What is read is the whole input or, of a
// longer one, its first 65,536 bytes, which are more than the 60,000 that a job may have, so that the answer is the same.
//
// A read that fails leaves standard output empty, and standard error says so: a text of which the end is not known is not
// answered. A write that fails may leave a part of the answer, and standard error says that it is not whole. Where neither
// fails nothing is written to standard error. Input that ends early without a failed read is a text like any other: cut
// inside a line it has a bad last line, answer 9.
#![tactic(auto)]

use input::read_text;
use std::io;
use std::io::Write;
use whole_job::answer_job;

// Writes the answer to a text, and says where it could not.
fn answer_text(rt: &(impl Print + Eprint), text: &[u8]) -> io::Result<()> {
    let mut answer = [0u8; 82944];
    let n = answer_job(text, &mut answer);
    if io::writer(rt).write_all(&answer[..n]).is_err() {
        return rt.eprintln("run_job: the answer is not written whole");
    }
    Ok(())
}

fn main(rt: HostRuntime) -> io::Result<()> {
    let mut text = [0u8; 65536];
    let Ok(n) = read_text(&mut rt.reader(), &mut text) else {
        return rt.eprintln("run_job: standard input cannot be read");
    };
    answer_text(&rt, &text[..n])
}
