// The run with an index.
ghost use Rattle.std.specs.Prelude.{◌≡◌, take, drop};
ghost use Rattle.calls.specs.Outcome.{outcome_of};
ghost use Rattle.calls.specs.Refused.{lent_signature};
ghost use Rattle.calls.specs.Run.{input};
ghost use Rattle.calls.specs.Indexed.{indexed_at_return, indexed_of};

use crate::refusing::{check_indexed_run, store_words};
use calls::{End, Ran};
use checks::refusal::Refusal;
use index::lent::build;
use loading::{closed, load, opened};
use running::run_accepted;
use words::clear_from;

// Refused, with nothing written, or run. The first `words` of what is lent are the store's, and the rest is the index, which is all zero at
// return; so is the store from the returned mark on. A signature that is lent may be empty.
pub fn run_indexed(
    table: &[u32],
    lent: &mut [u32],
    words: usize,
    bindings: &mut [u32],
    mark: u32,
    start: u32,
    subject: u32,
    units: u32,
    signature: Option<&[u32]>,
) -> Result<Ran, Refusal>
    ensures { indexed_at_return (outcome_of result subject mark) (take words lent.new) bindings.new (drop words lent.new)
        ≡ indexed_of (lent_signature signature.entry)
        (input table.now (take words lent.old) bindings.old mark start subject units)
        (drop words lent.old) }
{
    let all = lent.len();
    let own = store_words(words, all);
    let size = all - own;
    check_indexed_run(
        table,
        &lent[..own],
        bindings,
        mark,
        start,
        subject,
        size,
        signature,
    )?;
    let nodes = (own / 8) as u32;
    clear_from(lent, own);
    build(lent, nodes, mark);
    let mut code = [0u32; 32768];
    load(&mut code, table);
    let mut st = opened(bindings, mark, 0, mark, nodes);
    let r = run_accepted(&code, lent, &mut st, start, subject, units);
    clear_from(lent, 8 * (r.mark as usize));
    if let End::Done = r.end {
        closed(bindings, st);
    }
    Ok(r)
}
