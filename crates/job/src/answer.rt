// The text of an answer, put into a lent buffer. A buffer of 82,944 bytes is never too short: the answer's own line is at
// most 62 bytes, each of 1,024 `n` lines at most 79 and each of 64 `b` lines at most 24, together 82,494.
ghost use Rattle.std.specs.Prelude.{◌≡◌, [], ◌∷◌, ◌+◌, ◌*◌, ◌≤◌, ◌<◌, length, get_or};
ghost use Rattle.checks.specs.Kinds.{variables};
ghost use Rattle.job.specs.Written.{written};
ghost use Rattle.text.specs.Written.{Put};
ghost use Rattle.job.specs.Answer.{node_shown, node_line, node_lines, binding_line, binding_lines, shown, answer_name, answer_line, answered};

use checks::kinds::VARIABLES;
use text::write::{put_byte, put_rest};
use words::{row, word};

// The constructor and the six children's places of a node.
#[tactic(auto, unfolding(crate::specs::Answer::node_shown))]
fn node_shown(store: &[u32], k: u32) -> [u32; 8]
    ensures { result ≡ node_shown store.now k }
{
    let r = row(store, k);
    [r[0], r[2], r[3], r[4], r[5], r[6], r[7], 0]
}

// The `n` line of a node.
fn put_node(buf: &mut [u8], at: usize, store: &[u32], k: u32) -> usize
    requires { at + 79 ≤ length buf.old }
    ensures { Put buf.old at (written (node_line store.now k ∷ [])) buf.new result }
{
    let shown = word(store, k, 1).min(6) + 1;
    let numbers = node_shown(store, k);
    let end = put_byte(buf, at, b'n');
    put_rest(buf, end, &numbers[..shown as usize])
}

// The `n` lines of the nodes below the mark.
fn put_nodes(buf: &mut [u8], start: usize, store: &[u32], mark: u32) -> usize
    requires { start + 79 * mark ≤ length buf.old }
    ensures { Put buf.old start (written (node_lines store.now mark)) buf.new result }
{
    let mut at = start;
    for k in 0..mark {
        at = put_node(buf, at, store, k);
    }
    at
}

// The `b` line of a variable, where it is bound.
fn put_binding(buf: &mut [u8], at: usize, bindings: &[u32], v: u32) -> usize
    requires { (at + 24 ≤ length buf.old) × (v < length bindings.now) }
    ensures { Put buf.old at (written (binding_line bindings.now v)) buf.new result }
{
    let w = bindings[v as usize];
    if w == 0 {
        return at;
    }
    let end = put_byte(buf, at, b'b');
    put_rest(buf, end, &[v, w - 1])
}

// The `b` lines of the bound variables.
fn put_bindings(buf: &mut [u8], start: usize, bindings: &[u32]) -> usize
    requires { (start + 24 * variables ≤ length buf.old) × (length bindings.now ≡ variables) }
    ensures { Put buf.old start (written (binding_lines bindings.now variables)) buf.new result }
{
    let mut at = start;
    for v in 0..VARIABLES as u32 {
        at = put_binding(buf, at, bindings, v);
    }
    at
}

// `answer`.
fn put_name(buf: &mut [u8]) -> usize
    requires { 6 ≤ length buf.old }
    ensures { Put buf.old 0 answer_name buf.new result }
{
    buf[..6].copy_from_slice(b"answer");
    6
}

// The answer's own line.
fn put_line(buf: &mut [u8], five: [u32; 5]) -> usize
    requires { 62 ≤ length buf.old }
    ensures { Put buf.old 0 (answer_line five) buf.new result }
{
    let end = put_name(buf);
    put_rest(buf, end, &five)
}

// The answer shows what is left.
// As it is: an answer is a number, of a run, of a refusal, or 9: `answered`, which the contract of `answer` cites, takes it so.
#[tactic(auto, unfolding(crate::specs::Answer::shown))]
fn shows(a: u32) -> bool
    ensures { result ≡ shown a }
{
    matches!(a, 0 | 1 | 6..=8 | 12)
}

// The text of an answer from its five numbers, the store and the bindings: its length. The five are answer, place, subject, mark
// and units used.
pub fn answer(buf: &mut [u8], five: [u32; 5], store: &[u32], bindings: &[u32]) -> usize
    requires { (82944 ≤ length buf.old) × (get_or five 3 0 ≤ 1024) × (length bindings.now ≡ variables) }
    ensures { Put buf.old 0 (answered (get_or five 0 0) (get_or five 1 0) (get_or five 2 0) (get_or five 3 0) (get_or five 4 0) store.now bindings.now)
        buf.new result }
{
    let end = put_line(buf, five);
    if !shows(five[0]) {
        return end;
    }
    let nodes = put_nodes(buf, end, store, five[3]);
    put_bindings(buf, nodes, bindings)
}
