// The answer of a visit in one word: upper half × 2³² + units left. The upper half is a node, or says what ended the visit
// otherwise: its highest bit is clear for done, its two highest are 10 for failed and 11 for a cut-off. A word crosses a call in
// one register, and is read as an enum on the spot.
ghost use Rattle.std.specs.Prelude.{◌≡◌, ◌<◌};
ghost use Rattle.state.specs.Answers.{packed, failed_word, units_word, room_word, nesting_word, unbound_word, stopped_word, answer_of, attempt_of};

// A word's half: a node stands above it, and the units left below.
pub const HALF: u64 = 1 << 32;

// The upper half of failed, and the least of a cut-off. Every node is below them.
pub const FAILED: u64 = 1 << 31;

pub const CUT: u64 = 3 << 30;

// The upper halves of the cut-offs. The first 64 are for a variable to be built that has no binding, one for each variable that
// there may be. Then comes one for each limit.
pub const UNBOUND: u64 = CUT;

pub const UNITS: u64 = CUT + 64;

pub const ROOM: u64 = CUT + 65;

pub const NESTING: u64 = CUT + 66;

// A visit's answer: the node and the units left, or the units left, or the word of a cut-off.
#[derive(Clone, Copy)]
pub enum Answer {
    Done(u32, u32),
    Failed(u32),
    Cut(u64),
}

// An answer for an operator that goes on after a failure: the node where its operand succeeded, and the units left.
#[derive(Clone, Copy)]
pub enum Attempt {
    Ended(Option<u32>, u32),
    Cut(u64),
}

pub fn answer_of(r: u64) -> Answer
    ensures { result ≡ answer_of r }
{
    let t = r / HALF;
    let left = (r % HALF) as u32;
    if t < FAILED {
        return Answer::Done(t as u32, left);
    }
    if t < CUT {
        return Answer::Failed(left);
    }
    Answer::Cut(r)
}

pub fn attempt_of(r: u64) -> Attempt
    ensures { result ≡ attempt_of (answer_of r) }
{
    match answer_of(r) {
        Answer::Done(x, left) => Attempt::Ended(Some(x), left),
        Answer::Failed(left) => Attempt::Ended(None, left),
        Answer::Cut(c) => Attempt::Cut(c),
    }
}

pub fn done(t: u32, left: u32) -> u64
    ensures { result ≡ packed t left }
{
    t as u64 * HALF + left as u64
}

pub fn failure(left: u32) -> u64
    ensures { result ≡ failed_word left }
{
    FAILED * HALF + left as u64
}

pub fn no_units() -> u64
    ensures { result ≡ units_word }
{
    UNITS * HALF
}

pub fn no_room(left: u32) -> u64
    ensures { result ≡ room_word left }
{
    ROOM * HALF + left as u64
}

pub fn no_nesting(left: u32) -> u64
    ensures { result ≡ nesting_word left }
{
    NESTING * HALF + left as u64
}

// The variable v is to be built and has no binding.
pub fn no_binding(v: u32, left: u32) -> u64
    requires { v < 64 }
    ensures { result ≡ unbound_word v left }
{
    (UNBOUND + v as u64) * HALF + left as u64
}

// What stops a visit for which no nesting is left: the units, which are tested first, where none of them are left either.
pub fn stopped(left: u32) -> u64
    ensures { result ≡ stopped_word left }
{
    if left == 0 {
        return no_units();
    }
    no_nesting(left)
}
