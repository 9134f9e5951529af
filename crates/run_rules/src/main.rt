// Adds rules to a table: `e` lines and then rules as text from standard input, the entries in use and the rules in them to standard
// output. A text has at most 60,000 bytes.
//
// The first line of the answer is `answer` and four numbers: answer, line and field of the translation, and the entries in use. Where
// the answer is 0 the entries in use follow as `e` lines, and then the rules that start in them, each as its line.
//
// A read that fails, and a text that is too long, leave standard output empty, and standard error says so. A write that fails may leave
// a part of the answer, and standard error says that it is not whole. Otherwise nothing is written to standard error.
#![tactic(auto)]

use input::read_text;
use read::read_entries;
use show::show_answer;
use std::io;
use translate::translate::translate;

mod read;
mod show;

// Adds the rules of a text to the entries that it begins with, and writes the answer.
fn answer_text(rt: &(impl Print + Eprint), text: &[u8]) -> io::Result<()> {
    let mut table = [0u32; 32768];
    let base = read_entries(text, &mut table);
    let rules = base.rules;
    let told = translate(&mut table, base.used, &text[rules..]);
    if show_answer(&mut io::writer(rt), &table, base.used, told).is_err() {
        return rt.eprintln("run_rules: the answer is not written whole");
    }
    Ok(())
}

fn main(rt: HostRuntime) -> io::Result<()> {
    let mut text = [0u8; 60001];
    let Ok(n) = read_text(&mut rt.reader(), &mut text) else {
        return rt.eprintln("run_rules: standard input cannot be read");
    };
    if 60000 < n {
        return rt.eprintln("run_rules: the text has more than 60,000 bytes");
    }
    answer_text(&rt, &text[..n])
}
