// The run's one record: control words, and then a node for each variable. The control words are the mark, the pattern at which a
// match gave up last, the room, the nodes that an index holds, the store's nodes, and the mask of the variables that are bound, in two
// words, the low one first. The word of an unbound variable means nothing. Where the mask stands and how it is set is known here alone;
// elsewhere it is one number.
ghost use Rattle.std.specs.Prelude.{◌≡◌, ◌+◌, ◌≤◌, ◌<◌, eqb, length, get_or, replicate};
ghost use Rattle.std.specs.Int.Bits.{bit_and};
ghost use Rattle.checks.specs.Kinds.{variables};
ghost use Rattle.state.specs.Answers.{answer_of};
ghost use Rattle.state.specs.Record.{record_long, mark_of, mask_of, word_of, bit_of, bound, given_up, hidden, copied, kept_words, put_back, marking, masking};

use crate::answers::{Answer, HALF, answer_of};
use checks::kinds::VARIABLES;

// The control words.
pub const MARK: usize = 0;

pub const MISS: usize = 1;

// The room: the store's nodes, or 0 where every node is asked for by the index.
pub const ROOM: usize = 2;

// With an index: the nodes that it holds, which are those below TOP, and the store's nodes.
pub const TOP: usize = 3;

pub const NODES: usize = 4;

// The mask's low word, and its high one.
const MASK: usize = 5;

const MASK_HIGH: usize = 6;

// Where the words of the variables begin, and the record's words in all.
pub const FIRST: usize = 7;

pub const RECORD: usize = FIRST + VARIABLES;

#[derive(Clone, Copy)]
pub struct Bindings {
    pub words: [u32; RECORD],
}

// Word j of the record.
fn word_at(st: &[u32; RECORD], j: usize) -> u32
    requires { j < record_long }
    ensures { result ≡ get_or st.now j 0 }
{
    st[j]
}

// The mask of the variables that are bound.
pub fn mask_of(st: &[u32; RECORD]) -> u64
    ensures { result ≡ mask_of st.now }
{
    word_at(st, MASK) as u64 + word_at(st, MASK_HIGH) as u64 * HALF
}

fn put_mask(st: &mut [u32; RECORD], mask: u64)
    ensures { st.new ≡ masking st.old mask }
{
    st[MASK] = (mask % HALF) as u32;
    st[MASK_HIGH] = (mask / HALF) as u32;
}

// Whether variable v is bound.
pub fn is_bound(st: &[u32; RECORD], v: u32) -> bool
    requires { v < variables }
    ensures { result ≡ eqb (bit_of (mask_of st.now) v) 1 }
{
    (mask_of(st) >> v) % 2 == 1
}

// The word of variable v: its node, where it is bound.
pub fn word_of(st: &[u32; RECORD], v: u32) -> u32
    requires { v < variables }
    ensures { result ≡ word_of st.now v }
{
    st[FIRST + v as usize]
}

// Sets one variable of the record: v is bound to node t.
pub(crate) fn set_variable(b: &mut Bindings, v: u32, t: u32)
    requires { v < variables }
    ensures { b.new.words ≡ bound b.old.words v t }
{
    put_variable(&mut b.words, v, t);
}

// Sets one variable of a record by value: what a MATCH of a variable alone calls.
pub fn bind(b: Bindings, v: u32, t: u32) -> Bindings
    requires { v < variables }
    ensures { result.words ≡ bound b.words v t }
{
    let mut set = b;
    set_variable(&mut set, v, t);
    set
}

// Sets one variable in the words that a run holds.
pub fn put_variable(st: &mut [u32; RECORD], v: u32, t: u32)
    requires { v < variables }
    ensures { st.new ≡ bound st.old v t }
{
    st[FIRST + v as usize] = t;
    put_mask(st, mask_of(st) | (1 << v));
}

// Where a comparison failed, by its answer's word, the match gives up at the pattern p. A cut-off is no failure.
pub fn give_up(st: &mut [u32; RECORD], p: u32, got: u64)
    ensures { st.new ≡ given_up (answer_of got) st.old p }
{
    let Answer::Failed(_) = answer_of(got) else {
        return;
    };
    st[MISS] = p;
}

// What a failure puts back: the mark, and the mask of the variables that are bound.
#[derive(Clone, Copy)]
pub struct Saved {
    pub mark: u32,
    pub mask: u64,
}

pub fn save(st: &[u32; RECORD]) -> Saved
    ensures mark { result.mark ≡ mark_of st.now }
    ensures mask { result.mask ≡ mask_of st.now }
{
    Saved {
        mark: st[MARK],
        mask: mask_of(st),
    }
}

// Puts mark and mask back: a failure leaves no node and no binding. Where a match gave up stays.
pub fn restore(st: &mut [u32; RECORD], saved: Saved)
    ensures { st.new ≡ masking (marking st.old saved.mark) saved.mask }
{
    st[MARK] = saved.mark;
    put_mask(st, saved.mask);
}

// Those variables of the mask that are bound.
pub fn bound_in(st: &[u32; RECORD], mask: u64) -> u64
    ensures { result ≡ bit_and (mask_of st.now) mask }
{
    mask_of(st) & mask
}

// Unbinds the variables of the mask. Their words stay.
pub fn unbind(st: &mut [u32; RECORD], mask: u64)
    ensures { st.new ≡ hidden st.old mask }
{
    put_mask(st, mask_of(st) & (18446744073709551615 - mask));
}

// Copies the words of the variables of the mask, from the place `start` on to the place `at` on.
// As it is: it is no count over a range. It ends with the last bit of the mask, of which most masks have few.
fn copy_words(to: &mut [u32], at: usize, from: &[u32], start: usize, mask: u64)
    requires { (at + variables ≤ length to.old) × (start + variables ≤ length from.now) }
    ensures { to.new ≡ copied variables mask from.now start to.old at }
{
    let mut rest = mask;
    let mut v: usize = 0;
    while rest != 0 {
        if rest % 2 == 1 {
            to[at + v] = from[start + v];
        }
        rest = rest / 2;
        v += 1;
    }
}

// The words of the variables of the mask, each at its variable's number, written over zeros. The caller's own array takes them: an array
// that is handed back would stand in its frame twice.
pub fn keep_words(kept: &mut [u32; VARIABLES], st: &[u32; RECORD], mask: u64)
    requires { kept.old ≡ replicate variables 0 }
    ensures { kept.new ≡ kept_words st.now mask }
{
    copy_words(kept, 0, st, FIRST, mask);
}

// The words of the variables of the mask, each at its variable's number.
pub fn kept_words(st: &[u32; RECORD], mask: u64) -> [u32; VARIABLES]
    ensures { result ≡ kept_words st.now mask }
{
    let mut kept = [0u32; VARIABLES];
    keep_words(&mut kept, st, mask);
    kept
}

// Binds the variables of the mask again, with the words that were kept of them.
pub fn put_back(st: &mut [u32; RECORD], kept: &[u32; VARIABLES], mask: u64)
    ensures { st.new ≡ put_back kept.now mask st.old }
{
    copy_words(st, FIRST, kept, 0, mask);
    put_mask(st, mask_of(st) | mask);
}
