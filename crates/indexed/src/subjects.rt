// The call over many subjects with an index. The index is built once, before the first subject, and cleared once, at the end.
ghost use Rattle.std.specs.Prelude.{◌≡◌, take, drop};
ghost use Rattle.checks.specs.Numbers.{checked_of};
ghost use Rattle.calls.specs.Refused.{lent_signature};
ghost use Rattle.calls.specs.Many.{handed};
ghost use Rattle.calls.specs.Indexed.{indexed_many_at_return, indexed_many_of};

use crate::refusing::{check_indexed_many, store_words};
use checks::refusal::Refusal;
use index::lent::build;
use loading::{load, opened};
use many::put_five;
use running::run_accepted;
use state::record::TOP;
use words::clear_from;

// Refused, with nothing written, or run on each subject in turn. The first `words` of what is lent are the store's, and the rest is the
// index. Without subjects nothing is written. A signature that is lent may be empty.
pub fn run_many_indexed(
    table: &[u32],
    lent: &mut [u32],
    words: usize,
    bindings: &[u32],
    mark: u32,
    start: u32,
    subjects: &[u32],
    units: u32,
    results: &mut [u32],
    signature: Option<&[u32]>,
) -> Result<(), Refusal>
    ensures { indexed_many_at_return (checked_of result) results.new (take words lent.new) (drop words lent.new)
        ≡ indexed_many_of (lent_signature signature.entry)
        (handed table.now (take words lent.old) bindings.now mark start subjects.now units
        results.old) (drop words lent.old) }
{
    let all = lent.len();
    let own = store_words(words, all);
    let size = all - own;
    let listed = results.len();
    check_indexed_many(
        table,
        &lent[..own],
        bindings,
        mark,
        start,
        subjects,
        listed,
        size,
        signature,
    )?;
    if subjects.is_empty() {
        return Ok(());
    }
    let nodes = (own / 8) as u32;
    clear_from(lent, own);
    build(lent, nodes, mark);
    let mut code = [0u32; 32768];
    load(&mut code, table);
    let mut left = mark;
    let mut top = mark;
    for (j, subject) in subjects.iter().enumerate() {
        let mut st = opened(bindings, left, 0, top, nodes);
        let r = run_accepted(&code, lent, &mut st, start, *subject, units);
        left = r.mark;
        top = st[TOP];
        put_five(results, 5 * j, r.numbers());
    }
    clear_from(lent, 8 * (left as usize));
    Ok(())
}
