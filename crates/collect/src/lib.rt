// A collection: what the subject and the bound variables reach stays, and the room of all else comes back. It refuses by number
// and assumes nothing. The work list, which the caller lends, has a word for a node: 1 for one that is reached, then its new number.
#![tactic(auto)]

ghost use Rattle.std.specs.Prelude.{◌≡◌};
ghost use Rattle.collect.specs.Collected.{lent, at_end, collected, four_of, collected_of};

use crate::checking::check_collection;
use crate::marking::mark_reached;
use crate::moving::{move_bindings, move_kept};
use checks::refusal::Refusal;
use words::clear_from;

mod checking;
mod marking;
mod moving;

// The subject's new number, and the new mark.
#[derive(Clone, Copy)]
pub struct Packed {
    pub subject: u32,
    pub mark: u32,
}

// One pass down the store marks, one pass up moves and renumbers.
pub fn collect(
    store: &mut [u32],
    bindings: &mut [u32],
    work: &mut [u32],
    mark: u32,
    subject: u32,
) -> Result<Packed, Refusal>
    ensures { at_end (collected result subject mark) store.new bindings.new work.new ≡ collected_of (lent store.old bindings.old work.old mark subject) }
{
    check_collection(store, bindings, work, mark, subject)?;
    mark_reached(store, bindings, work, mark, subject);
    let kept = move_kept(store, work, mark);
    let renumbered = work[subject as usize];
    move_bindings(bindings, work);
    clear_from(store, 8 * (kept as usize));
    clear_from(work, 0);
    Ok(Packed {
        subject: renumbered,
        mark: kept,
    })
}

// The four numbers of a collection: answer, place, subject and mark; subject and mark as given where it refuses.
pub fn four_numbers(r: Result<Packed, Refusal>, subject: u32, mark: u32) -> [u32; 4]
    ensures { result ≡ four_of (collected r subject mark) }
{
    match r {
        Ok(kept) => [0, 0, kept.subject, kept.mark],
        Err(e) => [e.answer(), e.place(), subject, mark],
    }
}
