// What a run copies once: the table into words of fixed length, the bindings into the run's one record, and back.
#![tactic(auto)]

ghost use Rattle.std.specs.Prelude.{◌≡◌, ℕ, ◌≤◌, ◌<◌, length, replicate};
ghost use Rattle.std.proofs.Math.Option.{some};
ghost use Rattle.checks.specs.Kinds.{variables};
ghost use Rattle.meaning.specs.Answer.{binding_words};
ghost use Rattle.state.specs.Record.{held};
ghost use Rattle.loading.specs.Loaded.{Loaded, Opened};

use crate::hints::hint_for;
use state::record::{MARK, NODES, RECORD, ROOM, TOP, is_bound, put_variable, word_of};

mod hints;

// The table copied into words that are all zero; where something is known of an entry's first operand, it is noted in words 4 and 5
// of the entry. The words are the caller's: returned by value they would stand twice on the stack.
pub fn load(code: &mut [u32; 32768], table: &[u32])
    requires { (length table.now ≤ 32768) × (code.old ≡ replicate 32768 0) }
    ensures { Loaded table.now code.new }
{
    // As it is: word by word. By `copy_from_slice` the archive would ask its linker for memmove, and it needs memcpy and memset alone.
    for (i, word) in table.iter().enumerate() {
        code[i] = *word;
    }
    for e in 0..(table.len() / 8) as u32 {
        if let Some(hint) = hint_for(table, e) {
            let k = 8 * (e as usize);
            code[k + 4] = hint.entry;
            code[k + 5] = hint.visits;
        }
    }
}

// The record of these bindings with this mark. The room is the store's nodes, or 0 with an index, which holds the nodes below `top`.
pub fn opened(bindings: &[u32], mark: u32, room: u32, top: u32, nodes: u32) -> [u32; RECORD]
    requires { length bindings.now ≡ variables }
    ensures { Opened bindings.now mark room top nodes result }
{
    let mut words = [0u32; RECORD];
    words[MARK] = mark;
    words[ROOM] = room;
    words[TOP] = top;
    words[NODES] = nodes;
    for (v, w) in bindings.iter().enumerate() {
        if *w != 0 {
            put_variable(&mut words, v as u32, *w - 1);
        }
    }
    words
}

// The bindings that the record holds, written back; each bound node is below 131,072.
pub fn closed(bindings: &mut [u32], st: [u32; RECORD])
    requires { (length bindings.old ≡ variables) × ((v k : ℕ) → held st v ≡ some k → k < 131072) }
    ensures { bindings.new ≡ binding_words variables (held st) }
{
    for (v, w) in bindings.iter_mut().enumerate() {
        let v = v as u32;
        *w = if is_bound(&st, v) {
            word_of(&st, v) + 1
        } else {
            0
        };
    }
}
