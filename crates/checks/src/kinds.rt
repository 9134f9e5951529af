// The twenty kinds: constant tables of document 01's chapter "The strategy table", and the sort of an entry.
ghost use Rattle.std.specs.Prelude.{◌≡◌, ◌≢◌, ◌≤◌};
ghost use Rattle.checks.specs.Kinds.{kind, ours, lowest, highest_by, operands_from_by, sort_of};
ghost use Rattle.checks.specs.Kinds as table;

// The kinds by document 01's names.
// As it is: a kind stays the number that word 0 of an entry holds, and `match` goes over ranges of kinds, as document 01 has it.
pub const ID: u32 = 0;

pub const FAIL: u32 = 1;

pub const TEST: u32 = 2;

pub const NOT: u32 = 3;

pub const SEQ: u32 = 4;

pub const CHOICE: u32 = 5;

pub const LEFT: u32 = 6;

pub const REC: u32 = 7;

pub const CALL: u32 = 8;

pub const PATH: u32 = 9;

pub const CONG: u32 = 10;

pub const ALL: u32 = 11;

pub const ONE: u32 = 12;

pub const SOME: u32 = 13;

pub const MATCH: u32 = 14;

pub const BUILD: u32 = 15;

pub const SCOPE: u32 = 16;

pub const WHERE: u32 = 17;

pub const PVAR: u32 = 18;

pub const PCON: u32 = 19;

// The number of variables.
pub const VARIABLES: usize = 64;

// What an entry may be used as. A kind above 19 has no sort.
#[derive(Clone, Copy, PartialEq, Eq)]
pub enum Sort {
    Strategy,
    Pattern,
    Neither,
}

// As it is: document 01 asks for constant tables over the kinds; one table of twenty records would be longer and no plainer.
// The least number of operands of each kind.
const LEAST: [u32; 20] = [0, 0, 1, 1, 2, 2, 2, 1, 1, 1, 0, 1, 1, 1, 1, 1, 1, 1, 0, 0];

// The most operands of each kind.
const MOST: [u32; 20] = [0, 0, 1, 1, 2, 2, 2, 1, 1, 1, 6, 1, 1, 1, 1, 1, 1, 1, 0, 6];

// The least argument of each kind: PATH's alone is not 0.
const LOWEST: [u32; 20] = [0, 0, 0, 0, 0, 0, 0, 0, 0, 1, 0, 0, 0, 0, 0, 0, 0, 0, 0, 0];

// The greatest argument of each kind; 0 where none is named, and for SCOPE, whose mask has no greatest: it is any.
const HIGHEST: [u32; 20] = [
    0, 0, 0, 0, 0, 0, 0, 0, 0, 6, 65535, 0, 0, 0, 0, 0, 0, 0, 63, 65535,
];

// The sort of the operands of each kind: MATCH, BUILD and PCON take patterns.
const TAKES: [Sort; 20] = [
    Sort::Strategy,
    Sort::Strategy,
    Sort::Strategy,
    Sort::Strategy,
    Sort::Strategy,
    Sort::Strategy,
    Sort::Strategy,
    Sort::Strategy,
    Sort::Strategy,
    Sort::Strategy,
    Sort::Strategy,
    Sort::Strategy,
    Sort::Strategy,
    Sort::Strategy,
    Sort::Pattern,
    Sort::Pattern,
    Sort::Strategy,
    Sort::Strategy,
    Sort::Strategy,
    Sort::Pattern,
];

// The least number of operands of the kind k.
pub(crate) fn least(k: u32) -> u32
    requires { k ≤ 19 }
    ensures { result ≡ (kind k).least }
{
    LEAST[k as usize]
}

// The most operands of the kind k.
pub(crate) fn most(k: u32) -> u32
    requires { k ≤ 19 }
    ensures { result ≡ (kind k).most }
{
    MOST[k as usize]
}

// The least argument of the kind k.
pub(crate) fn lowest_argument(k: u32) -> u32
    requires { k ≤ 19 }
    ensures { result ≡ lowest (kind k).argument }
{
    LOWEST[k as usize]
}

// The greatest argument of the kind k, which is not SCOPE.
pub(crate) fn highest_argument(k: u32) -> u32
    requires { (k ≤ 19) × (k ≢ 16) }
    ensures { result ≡ highest_by ours (kind k).argument }
{
    HIGHEST[k as usize]
}

// The word at which the operands of the kind k begin: after word 0 and the argument, which is two words for a SCOPE and else one.
pub fn operands_from(k: u32) -> u32
    ensures { result ≡ operands_from_by ours k }
{
    if k == SCOPE { 3 } else { 2 }
}

// The sort of the operands of the kind k.
pub(crate) fn takes(k: u32) -> Sort
    requires { k ≤ 19 }
    ensures { result ≡ table.takes k }
{
    TAKES[k as usize]
}

// The sort of an entry of the kind k.
pub fn sort_of(k: u32) -> Sort
    ensures { result ≡ sort_of k }
{
    // As it is: document 01 gives the sorts as ranges of kinds.
    match k {
        ID..=WHERE => Sort::Strategy,
        PVAR..=PCON => Sort::Pattern,
        _ => Sort::Neither,
    }
}
