// Job text in, answer text out: the lines of a job, the job that they are or the first bad one, and the text of its answer.
#![tactic(auto)]

pub mod answer;
pub mod lines;
pub mod read;

use text::Numbers;

// What a line is: `job`, `e`, `n` or `b`.
#[derive(Clone, Copy, PartialEq, Eq)]
pub enum Name {
    Job,
    Entry,
    Node,
    Binding,
}

// A line of a job. Of an argument of two words `numbers` has the lower one, and `high` is the upper one.
#[derive(Clone, Copy)]
pub struct Line {
    pub name: Name,
    pub numbers: Numbers,
    pub high: u32,
}

// The line that begins at a place, or none where it is bad, and the place after it.
#[derive(Clone, Copy)]
pub struct Taken {
    pub line: Option<Line>,
    pub next: usize,
}

// What the lines so far say: the name of the last one, the rows so far, the least variable that may come next, and the
// numbers of line 1.
#[derive(Clone, Copy)]
pub struct Heading {
    pub last: Option<Name>,
    pub entries: u32,
    pub nodes: u32,
    pub variable: u32,
    pub units: u32,
    pub start: u32,
    pub subject: u32,
    pub room: u32,
}

// The number of the first bad line of a text that is no job.
#[derive(Clone, Copy, PartialEq, Eq)]
pub struct BadLine(pub u32);
