// What a visit does next, and what it waits for. All by value.
ghost use Rattle.std.specs.Prelude.{◌≡◌, ◌+◌, ◌<◌, ◌≤◌, min, length};
ghost use Rattle.checks.specs.Checked.{place_of};
ghost use Rattle.turns.specs.Ways.{record_from, held_at};

// Where the words of the variables stand in the work list: after 4,095 frames of 80 words each and 16 words of the run's own.
pub const RECORD: usize = 327616;

// The modes of a visit that is asked for: an entry applied, a pattern met by MATCH or by BUILD, a pair.
// As it is: a mode stands in the lent work list, of which a caller may have written any word, and `StepsOn` of step_run, by `machine_in`, says
// what each word is read as.
pub const APPLY: u32 = 0;

pub const MATCHED: u32 = 1;

pub const BUILT: u32 = 2;

pub const COMPARED: u32 = 3;

// What a frame waits for: a visit in a last position, SEQ's first, WHERE's, the comparison of a bound variable.
// As it is: such a word stands in the lent work list too, where it may be any number, and `StepsOn` of step_run promises a step there as well.
pub const PASS: u32 = 0;

pub const SECOND: u32 = 1;

pub const CONDITION: u32 = 2;

pub const EQUAL: u32 = 3;

// From here on a frame keeps the bindings: TEST's operand, NOT's, the first of CHOICE and LEFT, SCOPE's.
pub const TRIED: u32 = 4;

pub const DENIED: u32 = 5;

pub const FIRST: u32 = 6;

pub const SCOPED: u32 = 7;

// From here on it has a row of its node's words: a child of ONE, and of SOME before and after one has succeeded.
pub const LEFTMOST: u32 = 8;

pub const NONE_YET: u32 = 9;

pub const ONE_HAS: u32 = 10;

// From here on it keeps no bindings: the child of PATH, those of ALL, CONG, a PCON met by MATCH or by BUILD, and a pair.
pub const STEP: u32 = 11;

pub const EVERY: u32 = 12;

pub const EACH: u32 = 13;

pub const PARTS: u32 = 14;

pub const MAKING: u32 = 15;

pub const PAIRS: u32 = 16;

// A visit that is asked for: its mode, its entry or first node, its node, the variables that are unbound for it; and what the frame waits
// for, at which child.
#[derive(Clone, Copy)]
pub struct Asked {
    pub mode: u32,
    pub what: u32,
    pub at: u32,
    pub x: u32,
    pub y: u32,
    pub mask: u64,
}

// What a visit does next.
#[derive(Clone, Copy)]
pub enum Turn {
    // It succeeds with this node.
    Done(u32),
    Failed,
    // It gives up at this pattern.
    Missed(u32),
    // It ends the run at this variable, which has no binding.
    Stuck(u32),
    // It binds the variable to the node, and succeeds with it.
    Bound { variable: u32, node: u32 },
    // It makes the node of this constructor, without children.
    Leaf(u32),
    // It makes the node of its row.
    Made,
    // It asks for a visit, and opens a frame.
    Ask(Asked),
    // It asks for the visit of its next child.
    Next(Asked),
    // It ends a SCOPE, whose variables are those of the mask, and succeeds with the node.
    Unscope { node: u32, mask: u64 },
}

// A visit of x and y, for which the frame waits as `what` says.
pub(crate) fn visit(mode: u32, what: u32, x: u32, y: u32) -> Asked
    ensures { result ≡ record { mode = mode; what = what; at = 0; x = x; y = y; mask = 0 } }
{
    Asked {
        mode,
        what,
        at: 0,
        x,
        y,
        mask: 0,
    }
}

// A count read as at most 6.
pub fn few(n: u32) -> u32
    ensures { result ≡ min n 6 }
{
    n.min(6)
}

// The node that the variable v is bound to, where the mask has its bit.
pub fn bound(work: &[u32], mask: u64, v: u32) -> Option<u32>
    requires { (v < 64) × (record_from + 64 ≤ length work.now) }
    ensures { place_of result ≡ held_at work.now record_from mask v }
{
    if (mask >> v) % 2 == 1 {
        Some(work[RECORD + (v as usize)])
    } else {
        None
    }
}
