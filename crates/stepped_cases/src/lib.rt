// A run that can be set aside: the start call, and steps until the run has ended.
#![tactic(auto)]

use calls::{End, Ran, five_numbers};
use cases::memory::Given;
use cases::numbers::Numbers;
use cases::show::{show_lists, show_numbers};
use checks::refusal::Refusal;
use std::io;
use std::io::Write;
use stepping::{start_run, step_run};

// Whether a call left a run that goes on.
fn goes_on(r: Result<Ran, Refusal>) -> bool {
    match r {
        Ok(ran) => ran.end == End::Unfinished,
        Err(_) => false,
    }
}

// Makes a step and prints ` /` and its numbers: whether the run goes on.
fn step(
    out: &mut impl Write,
    table: &[u32],
    store: &mut [u32],
    bindings: &mut [u32],
    work: &mut [u32],
    visits: u32,
) -> io::Result<bool> {
    let r = step_run(table, store, bindings, work, visits);
    out.write_all(b" /")?;
    show_numbers(out, &five_numbers(r, 0, 0))?;
    Ok(goes_on(r))
}

// The start and the steps of a list until the run has ended, a step of one visit more where the work list is of no run then, and the
// memory that they leave.
fn run_steps(
    out: &mut impl Write,
    given: &Given,
    table: &[u32],
    store: &mut [u32],
    bindings: &mut [u32],
    work: &mut [u32],
    signature: Option<&[u32]>,
    steps: &[u32],
) -> io::Result<()> {
    let r = start_run(
        table,
        store,
        bindings,
        work,
        given.mark,
        given.start,
        given.subject,
        given.units,
        signature,
    );
    show_numbers(out, &five_numbers(r, given.subject, given.mark))?;
    let mut on = goes_on(r);
    for visits in steps {
        if !on {
            break;
        }
        on = step(out, table, store, bindings, work, *visits)?;
    }
    // The work list is empty or begins with 0, as one of no run does.
    if matches!(work.first(), None | Some(0)) {
        step(out, table, store, bindings, work, 1)?;
    }
    show_lists(out, store, bindings, work)
}

// A run in the parts of two lists that the case asks for: whether it asks for no more than there is. Behind the steps of the case stand
// two of the most visits, in which each run ends.
fn call_parts(
    out: &mut impl Write,
    numbers: &mut Numbers,
    given: &Given,
    table: &[u32],
    store: &mut [u32],
    bindings: &mut [u32],
    work: &mut [u32],
    steps: &mut [u32; 128],
    signed: bool,
) -> io::Result<bool> {
    let k = numbers.number() as usize;
    let first = numbers.number();
    let c = numbers.number() as usize;
    if work.len() < k || 126 < c {
        return Ok(false);
    }
    numbers.read(&mut steps[..c]);
    out.write_all(numbers.rest)?;
    let work = &mut work[..k];
    work.fill(first);
    let Some((table, signature)) = given.table_of(table, signed) else {
        return Ok(false);
    };
    run_steps(
        out,
        given,
        table,
        store,
        bindings,
        work,
        signature,
        &steps[..c + 2],
    )?;
    Ok(true)
}

// The same with lists of its own: more than the frames of 4,096 visits need, and room for 126 steps.
pub fn call_steps(
    out: &mut impl Write,
    numbers: &mut Numbers,
    given: &Given,
    table: &[u32],
    store: &mut [u32],
    bindings: &mut [u32],
    signed: bool,
) -> io::Result<bool> {
    let mut work = [0u32; 327780];
    let mut steps = [4294967295u32; 128];
    call_parts(
        out, numbers, given, table, store, bindings, &mut work, &mut steps, signed,
    )
}
