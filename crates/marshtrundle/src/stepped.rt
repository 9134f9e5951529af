// A run that can be set aside: a start call, and step calls over a work list that the caller lends. Nobody but the step
// calls may touch table, store, bindings and work list between them.
ghost use Rattle.std.proofs.Math.Option.{none, some};
ghost use Rattle.calls.specs.Run.{input};
ghost use Rattle.stepping.specs.Stepping.{lists, Starts, StepsOn};
ghost use Rattle.marshtrundle.specs.Exported.{five};

use calls::five_numbers;
use stepping::{start_run, step_run};

// The start: answer, place, subject, mark and units used. 25, or a refusal.
pub fn marshtrundle_start(
    table: &[u32],
    store: &[u32],
    bindings: &[u32],
    work: &mut [u32],
    mark: u32,
    start: u32,
    subject: u32,
    units: u32,
    numbers: &mut [u32; 5],
)
    ensures { Starts none (input table.now store.now bindings.now mark start subject units)
        work.old (five numbers.new) work.new }
{
    let r = start_run(
        table, store, bindings, work, mark, start, subject, units, None,
    );
    *numbers = five_numbers(r, subject, mark);
}

// The same with a signature.
pub fn marshtrundle_start_signed(
    table: &[u32],
    store: &[u32],
    bindings: &[u32],
    work: &mut [u32],
    mark: u32,
    start: u32,
    subject: u32,
    units: u32,
    signature: &[u32],
    numbers: &mut [u32; 5],
)
    ensures { Starts (some signature.now)
        (input table.now store.now bindings.now mark start subject units) work.old
        (five numbers.new) work.new }
{
    let r = start_run(
        table,
        store,
        bindings,
        work,
        mark,
        start,
        subject,
        units,
        Some(signature),
    );
    *numbers = five_numbers(r, subject, mark);
}

// The step: so many visits, or fewer if the run ends. The same five numbers.
pub fn marshtrundle_step(
    table: &[u32],
    store: &mut [u32],
    bindings: &mut [u32],
    work: &mut [u32],
    visits: u32,
    numbers: &mut [u32; 5],
)
    ensures { StepsOn table.now (lists store.old bindings.old work.old) visits
        (five numbers.new) (lists store.new bindings.new work.new) }
{
    *numbers = five_numbers(step_run(table, store, bindings, work, visits), 0, 0);
}
