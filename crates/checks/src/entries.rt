// The table check: what is wrong with an entry, the lowest entry with which something is, and the answer. Each word of an
// entry is read once.
ghost use Rattle.std.specs.Prelude.{◌≡◌, ◌+◌, ◌≤◌, ◌<◌, length};
ghost use Rattle.words.specs.Tests.{rejected};
ghost use Rattle.words.specs.Words.{rows};
ghost use Rattle.checks.specs.Good.{count_of, argument_fits_by, kind_of, operand_count, mask_by, operand_by, placed_for, sorted_for, operands_fault_by, fault, good_entry};
ghost use Rattle.checks.specs.Kinds as kinds;
ghost use Rattle.checks.specs.Kinds.{ours, operands_from_by};
ghost use Rattle.checks.specs.Checked.{faulted_by, table_length_fits, table_checked};
ghost use Rattle.checks.specs.Numbers.{fault_of, checked_of};

use crate::kinds::{
    CALL, PCON, REC, SCOPE, Sort, highest_argument, least, lowest_argument, most, operands_from,
    sort_of, takes,
};
use crate::refusal::{Fault, Refusal};
use crate::rows::unused_zero;
use words::word;

// The kind of entry e.
pub fn kind_of(table: &[u32], e: u32) -> u32
    ensures { result ≡ kind_of table.now e }
{
    word(table, e, 0) / 16
}

// The operand count of entry e.
pub fn operand_count(table: &[u32], e: u32) -> u32
    ensures { result ≡ operand_count table.now e }
{
    word(table, e, 0) % 16
}

// The mask of entry e, a SCOPE: word 1 is its low half and word 2 its high one.
pub fn mask(table: &[u32], e: u32) -> u64
    ensures { result ≡ mask_by ours table.now e }
{
    let low = word(table, e, 1) as u64;
    let high = word(table, e, 2) as u64;
    low + 4294967296 * high
}

// Operand i of entry e, whose operands begin at word `from`.
pub fn operand(table: &[u32], e: u32, from: u32, i: u32) -> u32
    requires { (from ≡ operands_from_by ours (kind_of table.now e)) × (from + i < 8) }
    ensures { result ≡ operand_by ours table.now e i }
{
    word(table, e, from + i)
}

// The kind k is known, and the count n lies within its bounds.
fn count_fits(k: u32, n: u32) -> bool
    ensures { result ≡ count_of k n }
{
    k <= PCON && least(k) <= n && n <= most(k)
}

// The argument of entry e, of the kind k, is in its range, and zero where none is named. Any mask is in a SCOPE's.
fn argument_fits(table: &[u32], e: u32, k: u32) -> bool
    requires { (k ≡ kind_of table.now e) × (k ≤ 19) }
    ensures { result ≡ argument_fits_by ours table.now e }
{
    let a = word(table, e, 1);
    k == SCOPE || (lowest_argument(k) <= a && a <= highest_argument(k))
}

// The operand o of entry e, of the kind k, is inside the table and above its entry; CALL's alone may be any entry.
fn operand_placed(table: &[u32], e: u32, k: u32, o: u32) -> bool
    ensures { result ≡ placed_for table.now e k o }
{
    (o as usize) < table.len() / 8 && (k == CALL || e < o)
}

// The operand o has the sort that the kind k takes; CALL's is a REC.
fn operand_sorted(table: &[u32], k: u32, sort: Sort, o: u32) -> bool
    requires { sort ≡ kinds.takes k }
    ensures { result ≡ sorted_for table.now k o }
{
    let j = kind_of(table, o);
    if k == CALL {
        j == REC
    } else {
        sort_of(j) == sort
    }
}

// The operands of entry e, of the kind k and with n of them: each is in its place, and then each has its sort. A wrong sort is kept in
// mind while the places of the rest are looked at.
fn check_operands(table: &[u32], e: u32, k: u32, n: u32) -> Result<(), Fault>
    requires { (k ≡ kind_of table.now e) × ((n ≡ operand_count table.now e) × ((k ≤ 19) × (operands_from_by ours k + n ≤ 8))) }
    ensures { fault_of result ≡ operands_fault_by ours table.now e }
{
    let sort = takes(k);
    let from = operands_from(k);
    let mut sorted = Ok(());
    for i in 0..n {
        let o = operand(table, e, from, i);
        if !operand_placed(table, e, k, o) {
            return Err(Fault::Place);
        }
        if !operand_sorted(table, k, sort, o) {
            sorted = Err(Fault::Sort);
        }
    }
    sorted
}

// What is wrong with entry e, the first in the order of `Fault`.
fn check_entry(table: &[u32], e: u32) -> Result<(), Fault>
    ensures { fault_of result ≡ fault table.now e }
{
    let w = word(table, e, 0);
    let k = w / 16;
    let n = w % 16;
    if !count_fits(k, n) {
        return Err(Fault::Count);
    }
    if !argument_fits(table, e, k) {
        return Err(Fault::Argument);
    }
    check_operands(table, e, k, n)?;
    if !unused_zero(table, e, operands_from(k) + n - 2) {
        return Err(Fault::Unused);
    }
    Ok(())
}

// The fault of the lowest bad entry of a table that is no longer than the longest.
fn check_all_entries(table: &[u32]) -> Result<(), Refusal>
    requires { length table.now ≤ 32768 }
    ensures { checked_of result ≡ faulted_by ours table.now (rejected (good_entry table.now) 0 (rows table.now)) }
{
    for e in 0..(table.len() / 8) as u32 {
        if let Err(fault) = check_entry(table, e) {
            return Err(Refusal::Entry(fault, e));
        }
    }
    Ok(())
}

// The table is not empty, a multiple of 8, and at most 32,768 words.
pub fn table_length_fits(n: usize) -> bool
    ensures { result ≡ table_length_fits n }
{
    n != 0 && n % 8 == 0 && n <= 32768
}

// The table check.
pub fn check_table(table: &[u32]) -> Result<(), Refusal>
    ensures { checked_of result ≡ table_checked table.now }
{
    if !table_length_fits(table.len()) {
        return Err(Refusal::Sizes);
    }
    check_all_entries(table)
}
