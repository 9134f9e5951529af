// A job's text in, its answer's text out: the text is read, run, and what comes back is written.
#![tactic(auto)]

ghost use Rattle.std.specs.Prelude.{◌≡◌, ◌≤◌, length};
ghost use Rattle.checks.specs.Kinds.{variables};
ghost use Rattle.text.specs.Written.{Put};
ghost use Rattle.job.specs.Held.{heading_of};
ghost use Rattle.whole_job.specs.Whole.{input_of, run_text, answer_to, JobAnswered};

use calls::five_numbers;
use checks::kinds::VARIABLES;
use job::answer::answer;
use job::read::read;
use job::{BadLine, Heading};
use running::run;

// Runs what a job hands over, and writes what comes back.
fn answer_run(
    table: &[u32],
    store: &mut [u32],
    bindings: &mut [u32],
    h: Heading,
    out: &mut [u8],
) -> usize
    requires { (length out.old ≡ 82944) × (length store.old ≤ 8192) × (length bindings.old ≡ variables) × (h.nodes ≤ 1024) }
    ensures { Put out.old 0 (run_text (input_of (heading_of h) table.now store.old bindings.old)) out.new result }
{
    let ran = run(
        table, store, bindings, h.nodes, h.start, h.subject, h.units, None,
    );
    let five = five_numbers(ran, h.subject, h.nodes);
    answer(out, five, store, bindings)
}

// The answer to a text, by way of the arrays that its words are read into.
fn answer_in(
    text: &[u8],
    table: &mut [u32],
    store: &mut [u32],
    bindings: &mut [u32],
    out: &mut [u8],
) -> usize
    requires { (length table.old ≡ 4096) × (length store.old ≡ 8192) × (length bindings.old ≡ variables) × (length out.old ≡ 82944) }
    ensures { Put out.old 0 (answer_to text.now) out.new result }
{
    match read(text, table, store, bindings) {
        Err(BadLine(n)) => answer(out, [9, n, 0, 0, 0], store, bindings),
        Ok(h) => {
            let entries = 8 * h.entries as usize;
            let room = 8 * h.room as usize;
            answer_run(&table[..entries], &mut store[..room], bindings, h, out)
        }
    }
}

// The answer to a text, of any length and of any bytes. A buffer of this length is never too short: `ShortEnough`.
pub fn answer_job(text: &[u8], out: &mut [u8; 82944]) -> usize
    ensures { JobAnswered text.now out.old out.new result }
{
    let mut table = [0u32; 4096];
    let mut store = [0u32; 8192];
    let mut bindings = [0u32; VARIABLES];
    answer_in(text, &mut table, &mut store, &mut bindings, out)
}
