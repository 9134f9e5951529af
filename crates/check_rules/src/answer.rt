// What a table and a text of rules get, before anything is written.
ghost use Rattle.std.specs.Prelude.{◌≡◌, length, replicate};
ghost use Rattle.checks.specs.Numbers.{checked_of};
ghost use Rattle.check_rules.specs.Check.{told_of};
ghost use Rattle.check_rules.specs.Answer.{used_checked, MasksOf, RulesChecked};

use crate::check::{RulesRefusal, check_text};
use checks::entries::{check_table, table_length_fits};
use checks::refusal::Refusal;
use free::passes::settle;

// The lent length, and the entries in use as a table of their own.
pub fn check_used(table: &[u32], used: u32) -> Result<(), Refusal>
    ensures { checked_of result ≡ used_checked table.now used }
{
    if !table_length_fits(table.len()) {
        return Err(Refusal::Sizes);
    }
    if table.len() / 8 < (used as usize) {
        return Err(Refusal::Sizes);
    }
    if used == 0 {
        return Ok(());
    }
    let end = 8 * (used as usize);
    check_table(&table[..end])
}

// The free variables of the entries in use, asked once.
pub fn fill_masks(table: &[u32], used: u32, masks: &mut [u64])
    requires { ((used_checked table.now used).answer ≡ 0) × (masks.old ≡ replicate 4096 0) }
    ensures { MasksOf table.now used masks.new }
{
    if used != 0 {
        let end = 8 * (used as usize);
        settle(&table[..end], masks);
    }
}

// The entries that will be in use with the rules of a text, over a table whose first `used` entries are in use.
pub fn check_rules(table: &[u32], used: u32, text: &[u8]) -> Result<u32, RulesRefusal>
    ensures { RulesChecked table.now used text.now (told_of result used) }
{
    check_used(table, used)?;
    let mut masks = [0u64; 4096];
    fill_masks(table, used, &mut masks);
    check_text(table, &masks, used, text)
}
