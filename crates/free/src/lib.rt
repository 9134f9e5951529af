// The question of free variables: which variables are free in a strategy of a table. Every table and every entry gets an
// answer, and nothing is written.
#![tactic(auto)]

ghost use Rattle.std.specs.Prelude.{◌≡◌};
ghost use Rattle.free.specs.Answered.{is_strategy, free_of, three_of, Answered};

use crate::passes::mask_of;
use checks::entries::{check_table, kind_of};
use checks::kinds::{Sort, sort_of};
use checks::refusal::Refusal;

mod order;
pub mod passes;

// Entry e is inside the table and a strategy.
#[tactic(auto, unfolding(crate::specs::Answered::is_strategy))]
fn is_strategy(table: &[u32], e: u32) -> bool
    ensures { result ≡ is_strategy table.now e }
{
    (e as usize) < table.len() / 8 && sort_of(kind_of(table, e)) == Sort::Strategy
}

// The mask of the free variables of the strategy at `entry`.
pub fn free_variables(table: &[u32], entry: u32) -> Result<u64, Refusal>
    ensures { Answered table.now entry (free_of result) }
{
    check_table(table)?;
    if !is_strategy(table, entry) {
        return Err(Refusal::Start);
    }
    Ok(mask_of(table, entry))
}

// Answer, place and mask, as numbers of 64 bits, for the mask has so many.
pub fn three_numbers(r: Result<u64, Refusal>) -> [u64; 3]
    ensures { result ≡ three_of (free_of r) }
{
    match r {
        Ok(mask) => [0, 0, mask],
        Err(e) => [e.answer() as u64, e.place() as u64, 0],
    }
}
