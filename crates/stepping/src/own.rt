// The run's own words in the work list: two rows at the place of the deepest visit, which opens no frame. Row 40,950: 1 more than the mode,
// x, y, level, mark, place, the units left, the mask's low word. Row 40,951: its high word, and the units, subject and mark that were
// given. After them stand the words of the variables.
ghost use Rattle.std.specs.Prelude.{◌≡◌, ℕ, ◌+◌, ◌*◌, ◌<◌, ◌≤◌, length};
ghost use Rattle.words.specs.Words.{word_at};
ghost use Rattle.stepping.specs.Stepping.{own_row, level_in, machine_in};
ghost use Rattle.stepping.specs.Ended.{given_in, Saved, Loaded, PutBack};

use machine::{Machine, SUCCEEDED};
use turns::turn::{RECORD, bound};
use words::{put_row, word};

// The row of the run's own words, and the one after it.
pub const OWN: u32 = 40950;

// What a run was given: its units, its subject and its mark.
#[derive(Clone, Copy)]
pub struct Given {
    pub units: u32,
    pub subject: u32,
    pub mark: u32,
}

impl Given {
    // As the list has it.
    pub(crate) fn read(work: &[u32]) -> Given
        ensures { result ≡ given_in work.now }
    {
        Given {
            units: word(work, OWN + 1, 1),
            subject: word(work, OWN + 1, 2),
            mark: word(work, OWN + 1, 3),
        }
    }
}

// The machine, and what was given, written into the list.
pub fn save(work: &mut [u32], m: Machine, g: Given)
    requires { (327680 ≤ length work.old) × (m.mode < 4) }
    ensures { Saved work.old m g.units g.subject g.mark work.new }
{
    let low = (m.mask % 4294967296) as u32;
    let high = (m.mask / 4294967296) as u32;
    put_row(
        work,
        OWN,
        [m.mode + 1, m.x, m.y, m.level, m.mark, m.place, m.fuel, low],
    );
    put_row(
        work,
        OWN + 1,
        [high, g.units, g.subject, g.mark, 0, 0, 0, 0],
    );
}

// A level, at most the deepest.
fn level_in(mode: u32, level: u32) -> u32
    ensures { result ≡ level_in mode level }
{
    let deepest = if mode < SUCCEEDED { 4096 } else { 4095 };
    level.min(deepest)
}

// The machine that the list holds. A level above the deepest is read as the deepest.
pub(crate) fn saved(work: &[u32]) -> Machine
    requires { 0 < word_at work.now own_row 0 }
    ensures { result ≡ machine_in work.now }
{
    let mode = word(work, OWN, 0) - 1;
    Machine {
        x: word(work, OWN, 1),
        mode,
        y: word(work, OWN, 2),
        level: level_in(mode, word(work, OWN, 3)),
        mark: word(work, OWN, 4),
        place: word(work, OWN, 5),
        fuel: word(work, OWN, 6),
        mask: word(work, OWN, 7) as u64 + word(work, OWN + 1, 0) as u64 * 4294967296,
    }
}

// The given bindings as words of the list; their mask.
pub fn load_bindings(work: &mut [u32], bindings: &[u32]) -> u64
    requires { (327680 ≤ length work.old) × (length bindings.now ≡ 64) }
    ensures { Loaded work.old bindings.now result work.new }
{
    let mut mask: u64 = 0;
    for (v, w) in bindings.iter().enumerate() {
        if *w != 0 {
            work[RECORD + v] = *w - 1;
            mask = mask | (1 << v);
        }
    }
    mask
}

// The present bindings written back.
pub(crate) fn put_bindings(bindings: &mut [u32], work: &[u32], mask: u64)
    requires { (length bindings.old ≡ 64) × (327680 ≤ length work.now) }
    ensures { PutBack work.now mask bindings.new }
{
    for (v, w) in bindings.iter_mut().enumerate() {
        *w = match bound(work, mask, v as u32) {
            Some(node) => node.wrapping_add(1),
            None => 0,
        };
    }
}
