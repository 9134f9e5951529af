// The smallest sets that fit document 01's rules, as masks: one mask to an entry, all empty at first. A pass goes from the
// highest entry to the lowest and adds to each mask what the entry's rule gives of its operands' masks. Masks only grow,
// so some pass adds nothing, and then every rule is met.
ghost use Rattle.std.specs.Prelude.{◌≡◌, ◌≤◌, ◌<◌, length, get_or};
ghost use Rattle.words.specs.Words.{rows};
ghost use Rattle.checks.specs.Kinds.{ours};
ghost use Rattle.checks.specs.Good.{operand_count};
ghost use Rattle.checks.specs.Plain.{Entry};
ghost use Rattle.free.specs.Answered.{MaskOfBy};
ghost use Rattle.free.specs.Passes.{joined_operands, ruled, grown, grows, passed, changed, BitsMeant, Settled};
ghost use Rattle.free.specs.Promises.{GoodTableBy, StrategyOf};

use crate::order::spread_again;
use checks::entries::{kind_of, mask, operand, operand_count};
use checks::kinds::{PVAR, SCOPE, operands_from};
use checks::rows::held;
use words::word;

// The mask of entry x; empty outside the masks.
fn mask_at(masks: &[u64], x: u32) -> u64
    ensures { result ≡ get_or masks.now x 0 }
{
    masks.get(x as usize).copied().unwrap_or(0)
}

// The masks of entry e's operands, joined; e is no SCOPE.
fn joined(table: &[u32], masks: &[u64], e: u32) -> u64
    requires { operand_count table.now e ≤ 6 }
    ensures { result ≡ joined_operands table.now masks.now e }
{
    let mut all = 0;
    for i in 0..operand_count(table, e) {
        all |= mask_at(masks, held(table, e, i));
    }
    all
}

// What the rule of entry e gives of its operands' masks.
fn rule(table: &[u32], masks: &[u64], e: u32) -> u64
    requires { Entry table.now e }
    ensures { result ≡ ruled ours table.now masks.now e }
{
    match kind_of(table, e) {
        SCOPE => mask_at(masks, operand(table, e, operands_from(SCOPE), 0)) & !mask(table, e),
        PVAR => 1 << word(table, e, 1),
        _ => joined(table, masks, e),
    }
}

// Adds to entry e's mask what its rule gives. Whether the mask grew.
pub(crate) fn grow(table: &[u32], masks: &mut [u64], e: u32) -> bool
    requires { Entry table.now e × (e < length masks.old) }
    ensures { (result ≡ grows ours table.now masks.old e) × (masks.new ≡ grown ours table.now masks.old e) }
{
    let old = mask_at(masks, e);
    let new = old | rule(table, masks, e);
    masks[e as usize] = new;
    new != old
}

// One pass. Whether a mask grew.
fn pass(table: &[u32], masks: &mut [u64]) -> bool
    requires { GoodTableBy ours table.now × (rows table.now ≤ length masks.old) }
    ensures { (result ≡ changed ours table.now (rows table.now) masks.old)
        × (masks.new ≡ passed ours table.now (rows table.now) masks.old) }
{
    let mut any = false;
    for e in (0..(table.len() / 8) as u32).rev() {
        any |= grow(table, masks, e);
    }
    any
}

// Passes until one adds nothing. A second that adds something met a CALL of a REC below it; then the masks are spread in the order of
// the calls before the next.
// As it is: table and masks stay two parameters; a struct with a `&mut` to the masks would have to prove its invariant at each write.
pub fn settle(table: &[u32], masks: &mut [u64])
    requires { GoodTableBy ours table.now × ((rows table.now ≤ length masks.old) × BitsMeant ours table.now masks.old) }
    ensures { BitsMeant ours table.now masks.new × Settled ours table.now masks.new }
{
    let mut times: u32 = 0;
    let mut more = pass(table, masks);
    while more {
        more = pass(table, masks);
        if more {
            times = spread_again(table, masks, times);
        }
    }
}

// The mask of the free variables of the strategy e.
pub(crate) fn mask_of(table: &[u32], e: u32) -> u64
    requires { GoodTableBy ours table.now × StrategyOf table.now e }
    ensures { MaskOfBy ours table.now e result }
{
    let mut masks = [0u64; 4096];
    settle(table, &mut masks);
    mask_at(&masks, e)
}
