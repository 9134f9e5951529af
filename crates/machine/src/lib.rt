// The machine: a run whose visits in flight are frames in a lent list. One loop, no recursion. Nothing in this crate knows a kind of entry:
// what a visit does next is a turn of the crate turns.
#![tactic(auto)]

ghost use Rattle.std.specs.Prelude.{◌≡◌, ℕ, ◌+◌, ◌-◌, ◌*◌, ◌%◌, ◌<◌, ◌≤◌, MatchOption};
ghost use Rattle.std.specs.Int.Bits.{bit_and};
ghost use Rattle.machine.specs.Machine.{Lent, Carried, Halts, Comes, Turned, Gone};

use crate::frames::{copy_words, kept_mask, move_on, open, restore, take_turn};
use crate::nodes::{put_leaf, put_made};
use turns::turn::{Asked, RECORD, Turn};

mod frames;
mod nodes;

// The modes beside those of a visit that is asked for: a visit has succeeded, failed; there is no room; a variable to be built has no
// binding.
// As it is: a mode stands in the lent work list, of which a caller may have written any word, and `StepsOn` of step_run, by `machine_in`, says
// what each word is read as.
pub const SUCCEEDED: u32 = 4;

pub const FAILED: u32 = 5;

pub const FULL: u32 = 6;

pub const STUCK: u32 = 7;

// The level of the deepest visit, which opens no frame.
const DEEPEST: u32 = 4095;

// The machine between two turns: what is asked for or has ended, how many visits are in flight, the mark, where the last match gave up,
// the units left, and the mask of the variables that are bound.
// As it is: mode, x and y are words of the list, of which `machine_in` reads every value, so no enum has them all.
#[derive(Clone, Copy)]
pub struct Machine {
    pub x: u32,
    pub mode: u32,
    pub y: u32,
    pub level: u32,
    pub mark: u32,
    pub place: u32,
    pub fuel: u32,
    pub mask: u64,
}

// The same machine, with this to do.
fn state(m: Machine, level: u32, mode: u32, x: u32, y: u32) -> Machine
    ensures { result ≡ record { x = x; mode = mode; y = y; level = level; mark = m.mark; place = m.place; fuel = m.fuel; mask = m.mask } }
{
    Machine {
        x,
        mode,
        y,
        level,
        ..m
    }
}

// The machine after i others asks for a visit, one deeper.
fn asking(m: Machine, i: u32, a: Asked) -> Machine
    requires { i < 4096 }
    ensures { result ≡ record { x = a.x; mode = a.mode % 4; y = a.y; level = i + 1; mark = m.mark; place = m.place; fuel = m.fuel; mask = bit_and m.mask (18446744073709551615 - a.mask) } }
{
    Machine {
        mask: m.mask & (18446744073709551615 - a.mask),
        ..state(m, i + 1, a.mode % 4, a.x, a.y)
    }
}

// A turn of the visit after i others. The deepest visit opens no frame: what it asks for is cut off, and its place has the run's own words.
fn act(
    table: &[u32],
    store: &mut [u32],
    work: &mut [u32],
    i: u32,
    m: Machine,
    t: Turn,
    shares: bool,
) -> Machine
    requires { (i < 4096) × Lent store.old work.old }
    ensures { Carried shares table.now store.old work.old i m t result store.new work.new }
{
    match t {
        Turn::Done(y) => state(m, i, SUCCEEDED, 0, y),
        Turn::Failed => state(m, i, FAILED, 0, 0),
        Turn::Missed(place) => Machine {
            place,
            ..state(m, i, FAILED, 0, 0)
        },
        Turn::Stuck(v) => state(m, i, STUCK, v, 0),
        Turn::Bound { variable, node } => {
            let v = variable % 64;
            work[RECORD + (v as usize)] = node;
            Machine {
                mask: m.mask | (1 << v),
                ..state(m, i, SUCCEEDED, 0, node)
            }
        }
        Turn::Leaf(c) => put_leaf(store, m, i, c, shares),
        Turn::Made => put_made(store, work, m, i, 10 * i + 1, shares),
        Turn::Ask(a) => {
            if i < DEEPEST {
                open(table, store, work, 10 * i, m, a);
            }
            asking(m, i, a)
        }
        Turn::Next(a) => {
            if i < DEEPEST {
                move_on(work, 10 * i, m, a.what);
            }
            asking(m, i, a)
        }
        Turn::Unscope { node, mask } => {
            let outer = state(m, i, SUCCEEDED, 0, node);
            if DEEPEST <= i {
                return outer;
            }
            let kept = kept_mask(work, 10 * i) & mask;
            copy_words(work, RECORD, 8 * (10 * (i as usize) + 2), kept);
            Machine {
                mask: (m.mask & (18446744073709551615 - mask)) | kept,
                ..outer
            }
        }
    }
}

// A visit begins, or one has ended and the frame below it goes on: the visit after i others.
fn turned(
    table: &[u32],
    store: &mut [u32],
    work: &mut [u32],
    m: Machine,
    i: u32,
    shares: bool,
) -> Machine
    requires { (i < 4096) × (3 < m.mode → i < 4095) × Lent store.old work.old }
    ensures { Turned shares table.now store.old work.old i m result store.new work.new }
{
    let k = restore(work, 10 * i, m);
    let r = Machine {
        mark: k.mark,
        mask: k.mask,
        ..m
    };
    let t = take_turn(table, store, work, 10 * i, r);
    act(table, store, work, i, r, t, shares)
}

// The machine with a unit less where a visit begins, and the visit that has the next turn, by how many others are in flight below it; or
// the machine stops.
fn next_turn(m: Machine, stop: u32) -> Option<(Machine, u32)>
    requires { stop ≤ m.fuel }
    ensures { MatchOption result (Halts m stop) (λ p. Comes m stop p.0 p.1) }
{
    if m.mode < SUCCEEDED {
        if m.fuel == stop || DEEPEST < m.level {
            return None;
        }
        let next = Machine {
            fuel: m.fuel - 1,
            ..m
        };
        Some((next, m.level))
    } else {
        if FAILED < m.mode || m.level == 0 {
            return None;
        }
        Some((m, m.level - 1))
    }
}

// Visits until `stop` units are left, and what follows them up to the next one's limit test; or to the end of the run; or one turn alone.
pub fn go(
    table: &[u32],
    store: &mut [u32],
    work: &mut [u32],
    a: Machine,
    stop: u32,
    shares: bool,
    once: bool,
) -> Machine
    requires { (a.level ≤ 4096) × (3 < a.mode → a.level < 4096) × (stop ≤ a.fuel) × Lent store.old work.old }
    ensures { Gone once shares table.now store.old work.old a stop result store.new work.new }
{
    let mut m = a;
    while let Some((next, i)) = next_turn(m, stop) {
        m = turned(table, store, work, next, i, shares);
        if once {
            return m;
        }
    }
    m
}
