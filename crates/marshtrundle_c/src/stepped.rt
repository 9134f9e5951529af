// A run that can be set aside, from the archive. Nobody but the step calls may touch table, store, bindings and work list between them.
ghost use Rattle.std.proofs.Math.Option.{none, some};
ghost use Rattle.calls.specs.Run.{input};
ghost use Rattle.stepping.specs.Stepping.{lists, Starts, StepsOn};
ghost use Rattle.marshtrundle.specs.Exported.{five};

// The start: answer, place, subject, mark and units used. 25, or a refusal.
#[unsafe(no_mangle)]
pub extern "C" fn marshtrundle_start(
    table: &[u32],
    store: &[u32],
    bindings: &[u32],
    work: &mut [u32],
    mark: u32,
    start: u32,
    subject: u32,
    units: u32,
    numbers: &mut [u32; 5],
)
    ensures { Starts none (input table.now store.now bindings.now mark start subject units)
        work.old (five numbers.new) work.new }
{
    marshtrundle::stepped::marshtrundle_start(
        table, store, bindings, work, mark, start, subject, units, numbers,
    );
}

// The same with a signature.
#[unsafe(no_mangle)]
pub extern "C" fn marshtrundle_start_signed(
    table: &[u32],
    store: &[u32],
    bindings: &[u32],
    work: &mut [u32],
    mark: u32,
    start: u32,
    subject: u32,
    units: u32,
    signature: &[u32],
    numbers: &mut [u32; 5],
)
    ensures { Starts (some signature.now)
        (input table.now store.now bindings.now mark start subject units) work.old
        (five numbers.new) work.new }
{
    marshtrundle::stepped::marshtrundle_start_signed(
        table, store, bindings, work, mark, start, subject, units, signature, numbers,
    );
}

// The step: so many visits, or fewer if the run ends. The same five numbers.
#[unsafe(no_mangle)]
pub extern "C" fn marshtrundle_step(
    table: &[u32],
    store: &mut [u32],
    bindings: &mut [u32],
    work: &mut [u32],
    visits: u32,
    numbers: &mut [u32; 5],
)
    ensures { StepsOn table.now (lists store.old bindings.old work.old) visits
        (five numbers.new) (lists store.new bindings.new work.new) }
{
    marshtrundle::stepped::marshtrundle_step(table, store, bindings, work, visits, numbers);
}
