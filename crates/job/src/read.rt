// Reading a job: the lines of a text in order, each taken in by what was read before it. The words go into lent arrays:
// the table, the store and the bindings.
ghost use Rattle.std.specs.Prelude.{◌≡◌, true, ◌≤◌, ◌<◌, length, get_or};
ghost use Rattle.checks.specs.Kinds.{variables};
ghost use Rattle.text.specs.Text.{parts};
ghost use Rattle.job.specs.Lines.{entry_row, node_row};
ghost use Rattle.job.specs.Job.{admitted, headed, blank, zeros, table_with, store_with, bindings_with, read_lines, Holds, meant, parsed_of, table_of, store_of, bindings_of};
ghost use Rattle.job.specs.Held.{name_number, heading_of, parsed};

use crate::lines::line_at;
use crate::{BadLine, Heading, Line, Name};
use checks::kinds::SCOPE;
use words::{clear_from, put_row};

impl Heading {
    // Nothing is read.
    fn blank() -> Heading
        ensures { heading_of result ≡ blank }
    {
        Heading {
            last: None,
            entries: 0,
            nodes: 0,
            variable: 0,
            units: 0,
            start: 0,
            subject: 0,
            room: 0,
        }
    }

    // The line may come next.
    #[tactic(auto, unfolding(crate::specs::Job::admitted))]
    fn admits(&self, line: &Line) -> bool
        ensures { result ≡ admitted (heading_of self.now) (name_number line.now.name) (get_or line.now.numbers.at 0 0) }
    {
        match line.name {
            Name::Job => self.last.is_none(),
            Name::Entry => matches!(self.last, Some(Name::Job | Name::Entry)) && self.entries < 512,
            Name::Node => {
                matches!(self.last, Some(Name::Job | Name::Entry | Name::Node)) && self.nodes < 1024
            }
            Name::Binding => self.last.is_some() && self.variable <= line.numbers.at[0],
        }
    }

    // The heading after the line.
    #[tactic(auto, unfolding(crate::specs::Job::headed))]
    fn advanced(self, line: &Line) -> Heading
        requires { (self.entries ≤ 512) × (self.nodes ≤ 1024) × (name_number line.now.name ≡ 3 → get_or line.now.numbers.at 0 0 < variables) }
        ensures { heading_of result ≡ headed (heading_of self) (name_number line.now.name) line.now.numbers.at }
    {
        let at = line.numbers.at;
        let last = Some(line.name);
        match line.name {
            Name::Job => Heading {
                last,
                entries: 0,
                nodes: 0,
                variable: 0,
                units: at[0],
                start: at[1],
                subject: at[2],
                room: at[3],
            },
            Name::Entry => Heading {
                last,
                entries: self.entries + 1,
                ..self
            },
            Name::Node => Heading {
                last,
                nodes: self.nodes + 1,
                ..self
            },
            Name::Binding => Heading {
                last,
                variable: at[0] + 1,
                ..self
            },
        }
    }
}

impl Line {
    // The row of an `e` line.
    #[tactic(auto, unfolding(crate::specs::Lines::entry_row))]
    pub fn entry_row(&self) -> [u32; 8]
        requires { (2 ≤ self.now.numbers.count) × (self.now.numbers.count ≤ 8) × (get_or self.now.numbers.at 0 0 ≤ 255) }
        ensures { result ≡ entry_row self.now.numbers.count self.now.numbers.at self.now.high }
    {
        let at = self.numbers.at;
        let first = 16 * at[0] + (self.numbers.count - 2);
        if at[0] == SCOPE {
            [first, at[1], self.high, at[2], at[3], at[4], at[5], at[6]]
        } else {
            [first, at[1], at[2], at[3], at[4], at[5], at[6], at[7]]
        }
    }

    // The row of an `n` line.
    #[tactic(auto, unfolding(crate::specs::Lines::node_row))]
    fn node_row(&self) -> [u32; 8]
        requires { 1 ≤ self.now.numbers.count }
        ensures { result ≡ node_row self.now.numbers.count self.now.numbers.at }
    {
        let at = self.numbers.at;
        [
            at[0],
            self.numbers.count - 1,
            at[1],
            at[2],
            at[3],
            at[4],
            at[5],
            at[6],
        ]
    }
}

// Puts the line into the words: an `e` line is the next row of the table, an `n` line the next row of the store, and a `b` line
// binds its variable.
#[tactic(auto, unfolding(crate::specs::Job::table_with, crate::specs::Job::store_with, crate::specs::Job::bindings_with))]
fn put_line(h: &Heading, line: &Line, table: &mut [u32], store: &mut [u32], bindings: &mut [u32])
    requires table { (length table.old ≡ 4096) × (name_number line.now.name ≡ 1
        → (h.now.entries < 512) × (2 ≤ line.now.numbers.count) × (line.now.numbers.count ≤ 8) × (get_or line.now.numbers.at 0 0 ≤ 255)) }
    requires store { (length store.old ≡ 8192) × (name_number line.now.name ≡ 2 → (h.now.nodes < 1024) × (1 ≤ line.now.numbers.count)) }
    requires bindings { (length bindings.old ≡ variables) × (name_number line.now.name ≡ 3
        → (get_or line.now.numbers.at 0 0 < variables) × (get_or line.now.numbers.at 1 0 < 131072)) }
    ensures table { table.new ≡ table_with table.old h.now.entries (name_number line.now.name) line.now.numbers.count line.now.numbers.at line.now.high }
    ensures store { store.new ≡ store_with store.old h.now.nodes (name_number line.now.name) line.now.numbers.count line.now.numbers.at }
    ensures bindings { bindings.new ≡ bindings_with bindings.old (name_number line.now.name) line.now.numbers.at }
{
    match line.name {
        Name::Job => {}
        Name::Entry => put_row(table, h.entries, line.entry_row()),
        Name::Node => put_row(store, h.nodes, line.node_row()),
        Name::Binding => {
            let at = line.numbers.at;
            bindings[at[0] as usize] = at[1] + 1;
        }
    }
}

// The lines of a text from the first on, over the words as they are.
fn read_lines(
    text: &[u8],
    table: &mut [u32],
    store: &mut [u32],
    bindings: &mut [u32],
) -> Result<Heading, BadLine>
    requires { (length text.now ≤ 60000) × (length table.old ≡ 4096) × (length store.old ≡ 8192) × (length bindings.old ≡ variables) }
    ensures { Holds (read_lines (record {
      heading = blank;
      table = table.old;
      store = store.old;
      bindings = bindings.old;
    }) 1 (parts 10 text.now)) (parsed result) table.new store.new bindings.new }
{
    let mut h = Heading::blank();
    let mut at = 0;
    let mut n: u32 = 1;
    while at < text.len() {
        let taken = line_at(text, at);
        let Some(line) = taken.line else {
            return Err(BadLine(n));
        };
        if !h.admits(&line) {
            return Err(BadLine(n));
        }
        put_line(&h, &line, table, store, bindings);
        h = h.advanced(&line);
        at = taken.next;
        n += 1;
    }
    if h.last.is_none() {
        return Err(BadLine(n));
    }
    Ok(h)
}

// Every word of the three arrays cleared.
fn clear_all(table: &mut [u32], store: &mut [u32], bindings: &mut [u32])
    requires { (length table.old ≡ 4096) × (length store.old ≡ 8192) × (length bindings.old ≡ variables) }
    ensures { (table.new ≡ zeros 4096) × (store.new ≡ zeros 8192) × (bindings.new ≡ zeros variables) }
{
    table.fill(0);
    store.fill(0);
    bindings.fill(0);
}

// As it is: slices, with their lengths in the contract, which docs/PROMISES.md names: array types would ask more of callers.
// The job of a text: its numbers, and its words in the lent arrays, or its first bad line, and zeros.
pub fn read(
    text: &[u8],
    table: &mut [u32],
    store: &mut [u32],
    bindings: &mut [u32],
) -> Result<Heading, BadLine>
    requires { (length table.old ≡ 4096) × (length store.old ≡ 8192) × (length bindings.old ≡ variables) }
    ensures { (parsed result ≡ parsed_of (meant text.now)) × (table.new ≡ table_of (meant text.now))
        × (store.new ≡ store_of (meant text.now)) × (bindings.new ≡ bindings_of (meant text.now)) }
{
    clear_all(table, store, bindings);
    if 60000 < text.len() {
        return Err(BadLine(0));
    }
    let read = read_lines(text, table, store, bindings);
    if read.is_err() {
        clear_all(table, store, bindings);
    }
    read
}
