// Masks in the order of the calls: an entry's operands before it, as far as it is not reached from itself. A note says of an entry
// that it was come to, which operand is next, and from where it was come to, so that there is no recursion.
ghost use Rattle.std.specs.Prelude.{◌≤◌, ◌<◌, length};
ghost use Rattle.words.specs.Words.{rows};
ghost use Rattle.checks.specs.Kinds.{ours};
ghost use Rattle.free.specs.Passes.{BitsMeant, Spread};
ghost use Rattle.free.specs.Promises.{GoodTableBy};

use crate::passes::grow;
use checks::entries::{kind_of, operand_count};
use checks::kinds::operands_from;
use words::word;

// The steps that 4,096 entries take at most: two to an entry, and one to each operand.
const STEPS: u32 = 32768;

// As it is: a note is one word, and an entry is told by one more than its number, 0 being none. With an Option of a struct for a note the
// notes took four times the stack, and the question of free variables passed the 64 KiB that we state. Its loops go with that form.
// The note of entry e; 1 outside the notes.
fn note_of(notes: &[u32], e: u32) -> u32 {
    let i = e as usize;
    if i < notes.len() { notes[i] } else { 1 }
}

fn put_note(notes: &mut [u32], e: u32, note: u32) {
    let i = e as usize;
    if i < notes.len() {
        notes[i] = note;
    }
}

// i of the numbers 0 to n, or as far from n, where it is turned.
fn from_either_end(n: u32, i: u32, turned: bool) -> u32
    requires { i ≤ n }
    ensures { result ≤ n }
{
    if turned { n - i } else { i }
}

// Operand i of entry e, from 1, or from the last where it is turned; 4,096 where there is none.
fn operand_of(table: &[u32], e: u32, i: u32, turned: bool) -> u32
    requires { i < 7 }
{
    let n = operand_count(table, e);
    if n < i {
        return 4096;
    }
    let k = from_either_end(n + 1, i, turned);
    let j = operands_from(kind_of(table, e)) + k - 1;
    if 7 < j {
        return 4096;
    }
    word(table, e, j)
}

// To entry x from the entry before `from`, or from none. One more than the entry where we are then: where x was come to before, we stay.
fn come_to(notes: &mut [u32], from: u32, x: u32) -> u32
    requires { (from ≤ 4096) × (x < 4096) }
{
    if note_of(notes, x) != 0 {
        return from;
    }
    put_note(notes, x, 8 * from + 1);
    x + 1
}

// One step from the entry before `here`: to its next operand, or, when it has no more, its own mask grows and we go back.
fn step(table: &[u32], masks: &mut [u64], notes: &mut [u32], here: u32, turned: bool) -> u32
    requires { GoodTableBy ours table.now × (rows table.now ≤ length masks.old) × BitsMeant ours table.now masks.old × (0 < here) }
    ensures { Spread ours table.now masks.old masks.new }
{
    let entries = table.len() / 8;
    let e = here - 1;
    if entries <= (e as usize) {
        return 0;
    }
    let note = note_of(notes, e);
    if note % 8 < 7 {
        let x = operand_of(table, e, note % 8, turned);
        if (x as usize) < entries {
            put_note(notes, e, note + 1);
            return come_to(notes, here, x);
        }
    }
    grow(table, masks, e);
    note / 8
}

// Every entry once, as it is come to: from the last entry and the first operand on, or turned, from the first entry and the last operand.
fn spread(table: &[u32], masks: &mut [u64], turned: bool)
    requires { GoodTableBy ours table.now × (rows table.now ≤ length masks.old) × BitsMeant ours table.now masks.old }
    ensures { Spread ours table.now masks.old masks.new }
{
    let mut notes = [0u32; 4096];
    let entries = (table.len() / 8) as u32;
    let mut root = entries;
    let mut here: u32 = 0;
    let mut steps: u32 = 0;
    while steps < STEPS {
        steps += 1;
        if here == 0 {
            if root == 0 {
                return;
            }
            root -= 1;
            let x = from_either_end(entries - 1, root, turned);
            here = come_to(&mut notes, 0, x);
        } else {
            here = step(table, masks, &mut notes, here, turned);
        }
    }
}

// Spreads the masks for the eight first times, one way and the other in turn. How often that was.
pub(crate) fn spread_again(table: &[u32], masks: &mut [u64], times: u32) -> u32
    requires { GoodTableBy ours table.now × (rows table.now ≤ length masks.old) × BitsMeant ours table.now masks.old }
    ensures { Spread ours table.now masks.old masks.new }
{
    if 7 < times {
        return times;
    }
    spread(table, masks, times % 2 == 1);
    times + 1
}
