// Rules as text into a table: everything that may refuse them is asked before a word is written.
ghost use Rattle.std.specs.Prelude.{◌≡◌};
ghost use Rattle.check_rules.specs.Check.{told_of};
ghost use Rattle.translate.specs.Added.{Translating};

use crate::lines::put_text;
use check_rules::answer::check_rules;
use check_rules::check::RulesRefusal;

// The rules of a text, added to a table whose first `used` entries are in use.
pub fn translate(table: &mut [u32], used: u32, text: &[u8]) -> Result<u32, RulesRefusal>
    ensures { Translating table.old used text.now (told_of result used) table.new }
{
    let all = check_rules(table, used, text)?;
    put_text(table, used, text);
    Ok(all)
}
