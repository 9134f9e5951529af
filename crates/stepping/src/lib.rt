// A run that can be set aside: the start call, and the step call. What is pending stands in a lent work list.
#![tactic(auto)]

ghost use Rattle.std.specs.Prelude.{◌≡◌, ℕ, ◌+◌, ◌-◌, ◌*◌, ◌<◌, ◌≤◌, Bool, length};
ghost use Rattle.words.specs.Words.{word_at, cleared_from};
ghost use Rattle.calls.specs.Outcome.{end_number, end_place, outcome_of, ran_of};
ghost use Rattle.calls.specs.Refused.{lent_signature};
ghost use Rattle.calls.specs.Run.{input};
ghost use Rattle.stepping.specs.Stepping.{lists, lengths_fit, Starts, StepsOn};
ghost use Rattle.stepping.specs.Ended.{Ended, Finished, Went};

use crate::own::{Given, OWN, load_bindings, put_bindings, save, saved};
use calls::{End, Ran};
use checks::entries::table_length_fits;
use checks::kinds::VARIABLES;
use checks::nodes::store_length_fits;
use checks::refusal::Refusal;
use machine::{FAILED, FULL, Machine, SUCCEEDED, go};
use refusals::check_run;
use turns::turn::APPLY;
use words::{clear_from, word};

pub mod own;

// The least length of a work list: 80 words for each of 4,096 levels.
pub const WORK: usize = 327680;

// The place of a failed run in which no match gave up: no table has such an entry.
pub const NOWHERE: u32 = 4096;

// The start. A signature that is lent may be empty: then every constructor is beyond the list.
pub fn start_run(
    table: &[u32],
    store: &[u32],
    bindings: &[u32],
    work: &mut [u32],
    mark: u32,
    start: u32,
    subject: u32,
    units: u32,
    signature: Option<&[u32]>,
) -> Result<Ran, Refusal>
    ensures { Starts (lent_signature signature.entry)
        (input table.now store.now bindings.now mark start subject units) work.old
        (outcome_of result subject mark) work.new }
{
    if work.len() < WORK {
        return Err(Refusal::Sizes);
    }
    check_run(table, store, bindings, mark, start, subject, signature)?;
    let mask = load_bindings(work, bindings);
    let m = Machine {
        x: start,
        mode: APPLY,
        y: subject,
        level: 0,
        mark,
        place: NOWHERE,
        fuel: units,
        mask,
    };
    let g = Given {
        units,
        subject,
        mark,
    };
    save(work, m, g);
    Ok(Ran {
        end: End::Unfinished,
        subject,
        mark,
        units: 0,
    })
}

// The lengths that a start asks for.
fn lengths_fit(table: &[u32], store: &[u32], bindings: &[u32], work: &[u32]) -> bool
    ensures { result ≡ lengths_fit table.now (lists store.now bindings.now work.now) }
{
    if !table_length_fits(table.len())
        || !store_length_fits(store.len())
        || bindings.len() != VARIABLES
    {
        return false;
    }
    WORK <= work.len()
}

// The work list is zero again: it holds no run.
fn clear_list(work: &mut [u32])
    ensures { work.new ≡ cleared_from work.old 0 }
{
    clear_from(work, 0);
}

// A run ends that is not done: subject and mark as given, the store cleared from the mark on, the work list zero.
fn end_run(store: &mut [u32], work: &mut [u32], end: End, left: u32) -> Ran
    requires { 327680 ≤ length work.old }
    ensures { Ended store.old work.old (end_number end) (end_place end) left (ran_of result) store.new work.new }
{
    let g = Given::read(work);
    clear_from(store, 8 * (g.mark as usize));
    clear_list(work);
    Ran {
        end,
        subject: g.subject,
        mark: g.mark,
        units: g.units.wrapping_sub(left),
    }
}

// A run is done: the new subject, mark and bindings.
fn finish(store: &mut [u32], bindings: &mut [u32], work: &mut [u32], m: Machine) -> Ran
    requires { (length bindings.old ≡ 64) × (327680 ≤ length work.old) }
    ensures { Finished store.old work.old m (ran_of result) store.new bindings.new work.new }
{
    let g = Given::read(work);
    put_bindings(bindings, work, m.mask);
    clear_from(store, 8 * (m.mark as usize));
    clear_list(work);
    Ran {
        end: End::Done,
        subject: m.y,
        mark: m.mark,
        units: g.units.wrapping_sub(m.fuel),
    }
}

// What a step answers where the machine has stopped: it had `had` units, and was to go until `stop` of them are left.
pub fn conclude(
    store: &mut [u32],
    bindings: &mut [u32],
    work: &mut [u32],
    had: u32,
    visits: u32,
    stop: u32,
    m: Machine,
) -> Ran
    requires { (length bindings.old ≡ 64) × (327680 ≤ length work.old) }
    ensures { Went store.old bindings.old work.old had visits stop m (ran_of result) store.new bindings.new work.new }
{
    if m.mode < SUCCEEDED {
        if m.fuel != stop {
            return end_run(store, work, End::Nesting, m.fuel);
        }
        if had < visits {
            return end_run(store, work, End::Units, m.fuel);
        }
        let g = Given::read(work);
        save(work, m, g);
        return Ran {
            end: End::Unfinished,
            subject: g.subject,
            mark: g.mark,
            units: g.units.wrapping_sub(m.fuel),
        };
    }
    match m.mode {
        SUCCEEDED => finish(store, bindings, work, m),
        FAILED => end_run(store, work, End::Failed(m.place), m.fuel),
        FULL => end_run(store, work, End::Room, m.fuel),
        _ => end_run(store, work, End::Unbound(m.x), m.fuel),
    }
}

// The step: so many visits, and what follows them up to the next one's limit test; or fewer, if the run ends.
pub fn step_run(
    table: &[u32],
    store: &mut [u32],
    bindings: &mut [u32],
    work: &mut [u32],
    visits: u32,
) -> Result<Ran, Refusal>
    ensures { StepsOn table.now (lists store.old bindings.old work.old) visits (outcome_of result 0 0)
        (lists store.new bindings.new work.new) }
{
    if !lengths_fit(table, store, bindings, work) {
        return Err(Refusal::Sizes);
    }
    if word(work, OWN, 0) == 0 {
        return Err(Refusal::NoRun);
    }
    let a = saved(work);
    let stop = a.fuel.saturating_sub(visits);
    let m = go(table, store, work, a, stop, false, false);
    Ok(conclude(store, bindings, work, a.fuel, visits, stop, m))
}
