// The frames in the list: ten rows of eight words each. Row 0: what, x, y, at, mark, and the mask of the bindings that the frame keeps, in
// two words; row 1: its node's row; from row 2 on the words of those bindings, or, of a pair, the other row.
ghost use Rattle.std.specs.Prelude.{◌≡◌, Bool, ◌⊎◌, List, ℕ, ◌+◌, ◌*◌, ◌%◌, ◌≤◌, ◌<◌, min, length, get_or};
ghost use Rattle.words.specs.Words.{word_at, put_row};
ghost use Rattle.turns.specs.Ways.{record_from, held_at, opened, next_of, saves as savesAt};
ghost use Rattle.machine.specs.Stack.{row_at, frame_at, mask_at, present};
ghost use Rattle.machine.specs.Machine.{head_of, Lent, Copied, Keeps, GivenBack, Fills, Opened, Restored, Taken};

use crate::nodes::row_at;
use crate::{Machine, SUCCEEDED};
use turns::begin::begin;
use turns::resume::{Head, Seen, failed, skipped, succeeded, walked};
use turns::turn::{Asked, LEFTMOST, MAKING, PAIRS, RECORD, STEP, TRIED, Turn, few};
use words::{put_row, word};

// What a frame gets back before it goes on.
#[derive(Clone, Copy)]
pub struct Kept {
    pub mark: u32,
    pub mask: u64,
}

// The frame keeps the bindings of its visit's start.
fn saves(what: u32) -> bool
    ensures { result ≡ savesAt what }
{
    TRIED <= what && what < STEP
}

// The words of the variables of the mask, from one place of the list to another. It ends with the last of them.
// As it is: the loop stops at the mask's last bit, and a `for` over the 64 variables would look at every bit.
pub(crate) fn copy_words(work: &mut [u32], to: usize, from: usize, mask: u64)
    requires { (to + 64 ≤ length work.old) × (from + 64 ≤ length work.old) × ((to + 64 ≤ from) ⊎ (from + 64 ≤ to)) }
    ensures { Copied work.old from to mask work.new }
{
    let mut rest = mask;
    let mut v: usize = 0;
    while rest != 0 {
        if rest % 2 == 1 {
            work[to + v] = work[from + v];
        }
        rest = rest / 2;
        v += 1;
    }
}

// The frame from row r on keeps the bindings of the mask, where it waits for such a visit.
fn keep_bindings(work: &mut [u32], r: u32, what: u32, mask: u64)
    requires { (r + 10 ≤ 40950) × (327680 ≤ length work.old) }
    ensures { Keeps work.old r what mask work.new }
{
    if saves(what) {
        copy_words(work, 8 * (r as usize + 2), RECORD, mask);
    }
}

// The mask of the bindings that the frame from row r on keeps.
pub(crate) fn kept_mask(work: &[u32], r: u32) -> u64
    ensures { result ≡ mask_at work.now r }
{
    word(work, r, 5) as u64 + word(work, r, 6) as u64 * 4294967296
}

// The first row of the frame from row r on, with the present mark; and the bindings that it keeps.
fn put_head(work: &mut [u32], r: u32, m: Machine, what: u32, x: u32, y: u32, at: u32)
    requires { (r + 10 ≤ 40950) × (327680 ≤ length work.old) }
    ensures { Keeps (put_row work.old r (head_of what x y at m.mark m.mask)) r what m.mask work.new }
{
    put_row(
        work,
        r,
        [
            what,
            x,
            y,
            at,
            m.mark,
            (m.mask % 4294967296) as u32,
            (m.mask / 4294967296) as u32,
            0,
        ],
    );
    keep_bindings(work, r, what, m.mask);
}

// The frame of the visit m, which waits: from row r on.
pub(crate) fn open(table: &[u32], store: &[u32], work: &mut [u32], r: u32, m: Machine, a: Asked)
    requires { (r + 10 ≤ 40950) × Lent store.now work.old }
    ensures { Opened work.old r (opened table.now store.now m.x m.y a) (present work.old m) m.mark work.new }
{
    put_head(work, r, m, a.what, m.x, m.y, a.at);
    if a.what < LEFTMOST {
        return;
    }
    if a.what == MAKING {
        let count = word(table, m.x, 0) % 16;
        put_row(work, r + 1, [word(table, m.x, 1), count, 0, 0, 0, 0, 0, 0]);
        return;
    }
    put_row(work, r + 1, row_at(store, m.y));
    if a.what == PAIRS {
        put_row(work, r + 2, row_at(store, m.x));
    }
}

// The frame from row r on goes on to its next child.
pub(crate) fn move_on(work: &mut [u32], r: u32, m: Machine, what: u32)
    requires { (r + 10 ≤ 40950) × (327680 ≤ length work.old) }
    ensures { (a : Asked) → a.what ≡ what → Opened work.old r (next_of (frame_at work.old r) a) (present work.old m) m.mark work.new }
{
    let x = word(work, r, 1);
    let y = word(work, r, 2);
    let at = word(work, r, 3) % 8 + 1;
    put_head(work, r, m, what, x, y, at);
}

// The bindings that the frame from row r on keeps are the present ones again; with its mark.
fn give_back(work: &mut [u32], r: u32) -> Kept
    requires { (r + 10 ≤ 40950) × (327680 ≤ length work.old) }
    ensures { GivenBack work.old r result work.new }
{
    let mark = word(work, r, 4);
    let mask = kept_mask(work, r);
    copy_words(work, RECORD, 8 * (r as usize + 2), mask);
    Kept { mark, mask }
}

// The row of the frame from row r on has the node y for the child that it is at.
fn fill(work: &mut [u32], r: u32, y: u32)
    requires { (r + 10 ≤ 40950) × (327680 ≤ length work.old) }
    ensures { Fills work.old r y work.new }
{
    let at = word(work, r, 3) % 8;
    if at < 6 {
        work[8 * (r as usize + 1) + 2 + (at as usize)] = y;
    }
}

// What the frame from row r on gets back before it goes on.
pub(crate) fn restore(work: &mut [u32], r: u32, m: Machine) -> Kept
    requires { (3 < m.mode → r + 10 ≤ 40950) × (327680 ≤ length work.old) }
    ensures { Restored work.old r m result work.new }
{
    let present = Kept {
        mark: m.mark,
        mask: m.mask,
    };
    if m.mode < SUCCEEDED {
        return present;
    }
    let what = word(work, r, 0);
    if m.mode == SUCCEEDED {
        if what == TRIED {
            return give_back(work, r);
        }
        if LEFTMOST <= what {
            fill(work, r, m.y);
        }
        return present;
    }
    if saves(what) {
        return give_back(work, r);
    }
    Kept {
        mark: word(work, r, 4),
        ..present
    }
}

// The child after child `at` of the row r; 0 where the row has none.
fn next_of(work: &[u32], r: u32, at: u32) -> u32
    ensures { result ≡ get_or (row_at work.now r) (3 + at) 0 }
{
    if at < 5 { word(work, r, 3 + at) } else { 0 }
}

// The turn of the visit m, or of the frame from row r on.
pub(crate) fn take_turn(table: &[u32], store: &[u32], work: &[u32], r: u32, m: Machine) -> Turn
    requires { (r + 10 ≤ 40960) × Lent store.now work.now }
    ensures { Taken table.now store.now work.now r m result }
{
    if m.mode < SUCCEEDED {
        return begin(table, store, work, m.mask, m.mode, m.x, m.y);
    }
    let what = word(work, r, 0);
    let h = Head {
        what,
        x: word(work, r, 1),
        y: word(work, r, 2),
    };
    if what < LEFTMOST {
        if m.mode == SUCCEEDED {
            return succeeded(table, h, m.y);
        }
        return failed(table, h);
    }
    let at = word(work, r, 3) % 8;
    let s = Seen {
        at,
        count: few(word(work, r + 1, 1)),
        next: next_of(work, r + 1, at),
        mate: next_of(work, r + 2, at),
    };
    if m.mode == SUCCEEDED {
        return walked(table, h, s);
    }
    skipped(table, h, s)
}
