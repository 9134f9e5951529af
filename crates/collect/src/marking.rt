// The pass down: which nodes the subject and the bound variables reach. Children lie below their parents, so that a node's own
// mark is settled when the pass comes to it.
ghost use Rattle.std.specs.Prelude.{ℕ, ◌≤◌, ◌<◌, length, get_or};
ghost use Rattle.checks.specs.Good.{child_count, child};
ghost use Rattle.collect.specs.Reachable.{is_child, is_root, kept};
ghost use Rattle.collect.specs.Refused.{Collectable};
ghost use Rattle.collect.specs.Collected.{lent};
ghost use Rattle.collect.specs.Passes.{MarksOver, Flags};

use checks::rows::held;
use words::{clear_from, word};

// The subject and the nodes of the bound variables are marked, and no other.
fn mark_roots(bindings: &[u32], work: &mut [u32], subject: u32)
    requires { (subject < length work.old) × ((v : ℕ) → get_or bindings.now v 0 ≤ length work.old) }
    ensures { Flags (length work.old) (is_root bindings.now subject) work.new }
{
    clear_from(work, 0);
    work[subject as usize] = 1;
    for bound in bindings {
        if *bound != 0 {
            work[*bound as usize - 1] = 1;
        }
    }
}

// The children of node k are marked.
fn mark_children(store: &[u32], work: &mut [u32], k: u32)
    requires { (child_count store.now k ≤ 6) × ((i : ℕ) → i < child_count store.now k → child store.now k i < length work.old) }
    ensures { MarksOver work.old (is_child store.now k) work.new }
{
    for i in 0..word(store, k, 1) {
        work[held(store, k, i) as usize] = 1;
    }
}

// The kept nodes are marked, and no other.
pub(crate) fn mark_reached(
    store: &[u32],
    bindings: &[u32],
    work: &mut [u32],
    mark: u32,
    subject: u32,
)
    requires { Collectable (lent store.now bindings.now work.old mark subject) }
    ensures { Flags (length work.old) (kept store.now bindings.now mark subject) work.new }
{
    mark_roots(bindings, work, subject);
    for k in (0..mark).rev() {
        if work[k as usize] != 0 {
            mark_children(store, work, k);
        }
    }
}
