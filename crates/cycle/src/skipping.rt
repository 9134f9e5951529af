// A strategy that is bound to fail at its head, found by a look at the node. What begins a rewrite rule is a MATCH, which
// fails where constructor or count differ. Its visits are counted without being made.
ghost use Rattle.std.specs.Prelude.{◌≡◌, ◌⊎◌, ◌<◌, IfSome, min};
ghost use Rattle.words.specs.Words.{word_at};
ghost use Rattle.checks.specs.Good.{kind_of};
ghost use Rattle.state.specs.Answers.{node_in, units_in};
ghost use Rattle.state.specs.Visits.{Stored};
ghost use Rattle.cycle.specs.Cycle.{Hinted, VisitsToFailure};

use state::answers::HALF;
use state::reading::{HINT_ENTRY, HINT_VISITS, agree, entry};

// How many visits the first operand of the CHOICE or LEFT e makes on the node of s before it fails. None where it is not known
// to fail, or where units or nesting might end before.
pub(crate) fn visits_to_failure(
    table: &[u32; 32768],
    store: &[u32],
    e: u32,
    s: u64,
    d: u32,
) -> Option<u32>
    requires { Hinted table.now × (e < 4096) × (word_at table.now e 4 < 4096) × ((kind_of table.now e ≡ 5) ⊎ (kind_of table.now e ≡ 6)) × Stored store.now (node_in s) }
    ensures { IfSome result (λ n. VisitsToFailure table.now store.now (word_at table.now e 2) (node_in s) (word_at table.now e 4) (min d (units_in s)) n) }
{
    let n = entry(table, e, HINT_VISITS);
    if n == 0
        || agree(table, store, entry(table, e, HINT_ENTRY), (s / HALF) as u32)
        || s % HALF < 4
        || d < 4
    {
        return None;
    }
    Some(n)
}
