// The pass up: the marked nodes move down to where the last one ended, and their new numbers take the place of their marks. What a
// node names has its new number when the pass comes to the node.
ghost use Rattle.std.specs.Prelude.{◌≡◌, map, ℕ, suc, ◌≤◌, ◌<◌, length, get_or};
ghost use Rattle.checks.specs.Good.{child_count, child};
ghost use Rattle.collect.specs.Packed.{renumbered, rebound};
ghost use Rattle.collect.specs.Passes.{Movable, Moved};

use checks::rows::held;
use words::{put_row, word};

// The eight words of node k, its children by the numbers that the work list has.
fn renumbered_row(store: &[u32], work: &[u32], k: u32) -> [u32; 8]
    requires { (child_count store.now k ≤ 6) × ((i : ℕ) → i < child_count store.now k → child store.now k i < length work.now) }
    ensures { result ≡ renumbered store.now (λ c. get_or work.now c 0) k }
{
    let n = word(store, k, 1);
    let mut row = [word(store, k, 0), n, 0, 0, 0, 0, 0, 0];
    for i in 0..n {
        row[2 + i as usize] = work[held(store, k, i) as usize];
    }
    row
}

// The marked nodes below the mark are moved. The answer is their number, the new mark.
pub(crate) fn move_kept(store: &mut [u32], work: &mut [u32], mark: u32) -> u32
    requires { Movable store.old work.old mark }
    ensures { Moved store.old work.old mark result store.new work.new }
{
    let mut n = 0;
    for k in 0..mark {
        if work[k as usize] != 0 {
            let row = renumbered_row(store, work, k);
            put_row(store, n, row);
            work[k as usize] = n;
            n += 1;
        }
    }
    n
}

// Each bound variable gets its node's number in the work list.
pub(crate) fn move_bindings(bindings: &mut [u32], work: &[u32])
    requires { (v k : ℕ) → get_or bindings.old v 0 ≡ suc k → (k < length work.now) × (get_or work.now k 0 < 131072) }
    ensures { bindings.new ≡ map (rebound (λ k. get_or work.now k 0)) bindings.old }
{
    for v in 0..bindings.len() {
        if bindings[v] != 0 {
            bindings[v] = work[bindings[v] as usize - 1] + 1;
        }
    }
}
