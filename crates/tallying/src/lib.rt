// An accepted run, visit by visit, with counts: four words for each entry of the table: its visits, successes and failures, and the visits
// in flight at a cut-off.
#![tactic(auto)]

ghost use Rattle.std.specs.Prelude.{◌≡◌, ℕ, ◌+◌, ◌*◌, ◌<◌, ◌≤◌, length, true, false, nat_eq, slice_index, slice_set, if◌then◌else◌};
ghost use Rattle.words.specs.Words.{rows};
ghost use Rattle.meaning.specs.Store.{Accepted};
ghost use Rattle.calls.specs.Run.{input};
ghost use Rattle.machine.specs.Machine.{Lent};
ghost use Rattle.tallying.specs.Counts.{bumped, visited_code, flown, rest_counted, Room};
ghost use Rattle.tallying.specs.Tally.{seen_at, CountedOn, Going, Stopped, Comes};
ghost use Rattle.tallying.specs.Added.{counted_at_return, counted_end, counted_ran, ran_if};

use calls::Ran;
use machine::{FULL, Machine, SUCCEEDED, go};
use stepping::own::{Given, load_bindings, save};
use stepping::{NOWHERE, WORK, conclude};
use turns::turn::{APPLY, COMPARED};

// What stands for a visit that is none of an entry.
const NO_ENTRY: u32 = 4294967295;

// The four counts of an entry: visits, successes, failures, visits in flight.
const BEGUN: usize = 0;

const WON: usize = 1;

const LOST: usize = 2;

const IN_FLIGHT: usize = 3;

// Adds 1 to count c of entry e, where there is such a word.
fn add(counts: &mut [u64], e: u32, c: usize)
    requires { c < 4 }
    ensures { counts.new ≡ bumped counts.old e c }
{
    let i = 4 * (e as usize) + c;
    if i < counts.len() {
        counts[i] = counts[i].wrapping_add(1);
    }
}

// A visit begins: its entry is kept at its level.
fn begin(kept: &mut [u32], counts: &mut [u64], m: Machine)
    requires { (m.level < 4096) × (4096 ≤ length kept.old) }
    ensures { (kept.new ≡ slice_set kept.old m.level (visited_code m)) × (counts.new ≡ bumped counts.old (visited_code m) 0) }
{
    let e = if m.mode == APPLY { m.x } else { NO_ENTRY };
    kept[m.level as usize] = e;
    add(counts, e, BEGUN);
}

// The visit at a level has ended.
fn end(kept: &[u32], counts: &mut [u64], m: Machine)
    requires { (m.level < 4096) × (4096 ≤ length kept.now) }
    ensures { counts.new ≡ bumped counts.old (slice_index kept.now m.level) (if nat_eq m.mode 4 then 1 else 2) }
{
    let e = kept[m.level as usize];
    let c = if m.mode == SUCCEEDED { WON } else { LOST };
    add(counts, e, c);
}

// The visits at the first n levels are in flight.
fn fly(kept: &[u32], counts: &mut [u64], n: u32)
    requires { (n ≤ 4096) × (4096 ≤ length kept.now) }
    ensures { counts.new ≡ flown kept.now counts.old n }
{
    for e in &kept[..n as usize] {
        add(counts, *e, IN_FLIGHT);
    }
}

// The visits of patterns and of pairs.
#[derive(Clone, Copy)]
pub struct Seen {
    pub patterns: u32,
    pub pairs: u32,
}

// A visit of this mode more.
fn see(s: Seen, mode: u32) -> Seen
    ensures { result ≡ seen_at s mode }
{
    match mode {
        APPLY => s,
        COMPARED => Seen {
            pairs: s.pairs.wrapping_add(1),
            ..s
        },
        _ => Seen {
            patterns: s.patterns.wrapping_add(1),
            ..s
        },
    }
}

// What a counted run comes to: the machine where it stopped, and the visits of patterns and of pairs.
#[derive(Clone, Copy)]
pub struct Tally {
    pub machine: Machine,
    pub seen: Seen,
}

// The machine has a turn to take: a visit that no limit cuts off, or an end to tell to a frame.
fn goes_on(m: Machine) -> bool
    ensures goes { result ≡ true → Going m }
    ensures stops { result ≡ false → Stopped m }
{
    if m.mode < SUCCEEDED {
        return 0 < m.fuel && m.level < 4096;
    }
    m.mode < FULL && 0 < m.level
}

// The visit that begins now, or that has ended, is counted.
fn count_turn(kept: &mut [u32], counts: &mut [u64], m: Machine, s: Seen) -> Seen
    requires { Going m × (3 < m.mode → m.level < 4096) × (4096 ≤ length kept.old) }
    ensures { Comes m s kept.old counts.old result kept.new counts.new }
{
    if m.mode < SUCCEEDED {
        begin(kept, counts, m);
        return see(s, m.mode);
    }
    end(kept, counts, m);
    s
}

// Visits until the units are used or the run ends, each counted as it begins and as it ends.
fn count_on(
    table: &[u32],
    store: &mut [u32],
    work: &mut [u32],
    kept: &mut [u32],
    counts: &mut [u64],
    a: Machine,
    shares: bool,
) -> Tally
    requires { (a.level ≡ 0) × (a.mode < 4) × Lent store.old work.old × (length kept.old ≡ 4096) × Room counts.old }
    ensures { CountedOn shares table.now store.old work.old counts.old a result.machine
        result.seen store.new work.new kept.new counts.new × Stopped result.machine }
{
    let mut m = a;
    let mut s = Seen {
        patterns: 0,
        pairs: 0,
    };
    while goes_on(m) {
        s = count_turn(kept, counts, m, s);
        m = go(table, store, work, m, 0, shares, true);
    }
    Tally {
        machine: m,
        seen: s,
    }
}

// What is left to count where the machine has stopped: the root's end, or the visits in flight at a cut-off.
fn count_rest(kept: &[u32], counts: &mut [u64], m: Machine)
    requires { (m.level ≤ 4096) × (3 < m.mode → m.level < 4096) × (4096 ≤ length kept.now) }
    ensures { counts.new ≡ rest_counted kept.now counts.old m }
{
    if m.mode < SUCCEEDED {
        fly(kept, counts, m.level);
    } else if m.mode < FULL {
        end(kept, counts, m);
    } else {
        fly(kept, counts, m.level + 1);
    }
}

// What a counted run comes to, and its visits of patterns and of pairs.
#[derive(Clone, Copy)]
pub struct RanCounted {
    pub ran: Ran,
    pub seen: Seen,
}

// An accepted run with counts. Its frames stand in a list of its own, and the entry of the visit at each level in another.
pub fn run_on(
    table: &[u32],
    store: &mut [u32],
    bindings: &mut [u32],
    mark: u32,
    start: u32,
    subject: u32,
    units: u32,
    counts: &mut [u64],
    shares: bool,
) -> RanCounted
    requires { Accepted (input table.now store.old bindings.old mark start subject units) × (length counts.old ≡ 4 * rows table.now) × Room counts.old }
    ensures { counted_at_return (counted_ran result) store.new bindings.new counts.new
        ≡ counted_end (input table.now store.old bindings.old mark start subject units)
        (ran_if shares (input table.now store.old bindings.old mark start subject units)) counts.old }
{
    let mut work = [0u32; WORK];
    let mut kept = [0u32; 4096];
    let mask = load_bindings(&mut work, bindings);
    let a = Machine {
        x: start,
        mode: APPLY,
        y: subject,
        level: 0,
        mark,
        place: NOWHERE,
        fuel: units,
        mask,
    };
    let g = Given {
        units,
        subject,
        mark,
    };
    save(&mut work, a, g);
    let t = count_on(table, store, &mut work, &mut kept, counts, a, shares);
    count_rest(&kept, counts, t.machine);
    let ran = conclude(store, bindings, &mut work, 0, 1, 0, t.machine);
    RanCounted { ran, seen: t.seen }
}
