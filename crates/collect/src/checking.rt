// What a collection refuses, in document 01's order: 2, 4, 5. Nothing is written here.
ghost use Rattle.std.specs.Prelude.{◌≡◌, ℕ};
ghost use Rattle.collect.specs.Refused.{sizes_fit_by, refused_by};
ghost use Rattle.checks.specs.Kinds.{ours};
ghost use Rattle.checks.specs.Numbers.{checked_of};
ghost use Rattle.collect.specs.Collected.{lent};

use checks::bindings::bindings_below;
use checks::kinds::VARIABLES;
use checks::nodes::{check_store, store_length_fits};
use checks::refusal::Refusal;

// The lengths, and the mark within the store. The subject is not looked at.
#[tactic(auto, unfolding(crate::specs::Refused::sizes_fit_by))]
fn sizes_fit(store: &[u32], bindings: &[u32], work: &[u32], mark: u32) -> bool
    ensures { (subject : ℕ) → result ≡ sizes_fit_by ours (lent store.now bindings.now work.now mark subject) }
{
    store_length_fits(store.len())
        && bindings.len() == VARIABLES
        && mark as usize <= store.len() / 8
        && store.len() / 8 <= work.len()
}

// The lengths and the mark, then the nodes, then the subject and the bindings.
// As it is: the lists stay parameters; the check reads all three and the passes write some, so a struct would be made anew for each.
pub(crate) fn check_collection(
    store: &[u32],
    bindings: &[u32],
    work: &[u32],
    mark: u32,
    subject: u32,
) -> Result<(), Refusal>
    ensures { checked_of result ≡ refused_by ours (lent store.now bindings.now work.now mark subject) }
{
    if !sizes_fit(store, bindings, work, mark) {
        return Err(Refusal::Sizes);
    }
    check_store(store, mark)?;
    if mark <= subject || !bindings_below(bindings, mark) {
        return Err(Refusal::Start);
    }
    Ok(())
}
