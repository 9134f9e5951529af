// The run: table, store and bindings as slices, the mark, the start, the subject, the units.
#![tactic(auto)]

ghost use Rattle.std.specs.Prelude.{◌≡◌};
ghost use Rattle.state.specs.Answers.{packed};
ghost use Rattle.cycle.specs.Cycle.{Ready};
ghost use Rattle.calls.specs.Outcome.{end_number, end_place, outcome_of, ran_of};
ghost use Rattle.calls.specs.Refused.{lent_signature};
ghost use Rattle.calls.specs.Run.{input, at_return, run_with};
ghost use Rattle.running.specs.Ends.{cut_number, cut_place, RanAccepted};

use calls::{End, Ran};
use checks::refusal::Refusal;
use cycle::visits::apply;
use loading::{closed, load, opened};
use refusals::check_run;
use state::answers::{Answer, HALF, ROOM, UNITS, answer_of, done};
use state::record::{MARK, MISS, RECORD};
use words::clear_from;

// The place of a failed run in which no match gave up: no table has such an entry.
pub const NOWHERE: u32 = 4096;

// How a cut-off ends a run.
fn cut_end(c: u64) -> End
    ensures answer { end_number result ≡ cut_number c }
    ensures place { end_place result ≡ cut_place c }
{
    match c / HALF {
        t if t < UNITS => End::Unbound((t % 64) as u32),
        UNITS => End::Units,
        ROOM => End::Room,
        _ => End::Nesting,
    }
}

// A run of accepted input, over a loaded table, what is lent and an opened record. Where it is done the record holds the new mark and the new
// bindings; where it failed, the pattern at which the last match gave up. The words above the mark are left as they are.
pub fn run_accepted(
    code: &[u32; 32768],
    store: &mut [u32],
    st: &mut [u32; RECORD],
    start: u32,
    subject: u32,
    units: u32,
) -> Ran
    requires { Ready code.now store.old st.old start (packed subject units) }
    ensures { RanAccepted code.now store.old st.old start subject units (ran_of result) st.new store.new }
{
    let mark = st[MARK];
    st[MISS] = NOWHERE;
    let got = apply(code, store, st, start, done(subject, units), 4096);
    match answer_of(got) {
        Answer::Done(x, left) => Ran {
            end: End::Done,
            subject: x,
            mark: st[MARK],
            units: units - left,
        },
        Answer::Failed(left) => Ran {
            end: End::Failed(st[MISS]),
            subject,
            mark,
            units: units - left,
        },
        Answer::Cut(c) => Ran {
            end: cut_end(c),
            subject,
            mark,
            units: units - (c % HALF) as u32,
        },
    }
}

// Refused, with nothing written, or run. The bindings are written where the run is done; from the returned mark on the store is zero. A
// signature that is lent may be empty: then every constructor is beyond the list.
pub fn run(
    table: &[u32],
    store: &mut [u32],
    bindings: &mut [u32],
    mark: u32,
    start: u32,
    subject: u32,
    units: u32,
    signature: Option<&[u32]>,
) -> Result<Ran, Refusal>
    ensures { at_return (outcome_of result subject mark) store.new bindings.new
        ≡ run_with (lent_signature signature.entry)
        (input table.now store.old bindings.old mark start subject units) }
{
    check_run(table, store, bindings, mark, start, subject, signature)?;
    let mut code = [0u32; 32768];
    load(&mut code, table);
    let nodes = (store.len() / 8) as u32;
    let mut st = opened(bindings, mark, nodes, 0, 0);
    let r = run_accepted(&code, store, &mut st, start, subject, units);
    clear_from(store, 8 * (r.mark as usize));
    if let End::Done = r.end {
        closed(bindings, st);
    }
    Ok(r)
}
