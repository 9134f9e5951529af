// The memory that a case lends to its call. The case begins with these numbers:
//
//     TABLE STORE BINDINGS MARK START SUBJECT UNITS FILL HEAD ARGUMENT SECOND PATCHES (SLICE WORD VALUE).. LABEL
//
// The first three are the lengths of the slices, which begin as zeros. FILL is a sum of
//
//     1  every store word from the mark on is set
//     2  the nodes below the mark are a chain: each is the one child of the next
//     4  the nodes below the mark have six children each, those just below them; the first six have none
//     8  entries 2 and 3, 4 and 5 and so on are each a REC and its body, a CALL of the REC before
//     16 every table word from ARGUMENT on is SECOND
//
// Where HEAD is not 0, each entry but the last is HEAD, ARGUMENT, the next entry, SECOND. Then each WORD of SLICE (0 table,
// 1 store, 2 bindings) is set to its VALUE. A collection takes no table: its work list is lent in the table's place. A run with a
// signature has it behind the table: the table has ARGUMENT words, and the rest is the signature. A call over many subjects has
// their number in the place of SUBJECT. Before its label stand the length of its result list and the subjects; every word of the result
// list is 4294967295 before the call. A run in steps has before its label the length of the work list, what each of its words is before the
// call, the number of steps and the visits of each. A run with counts has before its label the words of the store, behind which the index
// stands; the length of the counts; what each of them is before the call, its upper half and its lower; and of each that is another its
// number and its halves, the number of these first. The translator and the writer of rules have the number of entries in use in the
// place of SUBJECT. Of the translator START is the length of the text, which stands before the label. The writer's buffer has the lowest
// byte of each store word.
ghost use Rattle.std.specs.Prelude.{◌+◌, ◌*◌, ◌≤◌, length};

use crate::numbers::Numbers;
use checks::kinds::{CALL, REC, SCOPE};
use words::put_row;

// The numbers that a case begins with, but for its patches.
#[derive(Clone, Copy)]
pub struct Given {
    pub table: usize,
    pub store: usize,
    pub bindings: usize,
    pub mark: u32,
    pub start: u32,
    pub subject: u32,
    pub units: u32,
    pub fill: u32,
    pub head: u32,
    pub argument: u32,
    pub second: u32,
    pub patches: u32,
}

// What FILL asks for.
const PAST: u32 = 1;

const CHAIN: u32 = 2;

const SIX: u32 = 4;

const RECS: u32 = 8;

const BEHIND: u32 = 16;

impl Given {
    // Reads them.
    pub fn read(numbers: &mut Numbers) -> Given {
        Given {
            table: numbers.number() as usize,
            store: numbers.number() as usize,
            bindings: numbers.number() as usize,
            mark: numbers.number(),
            start: numbers.number(),
            subject: numbers.number(),
            units: numbers.number(),
            fill: numbers.number(),
            head: numbers.number(),
            argument: numbers.number(),
            second: numbers.number(),
            patches: numbers.number(),
        }
    }

    // The table of a case, and the signature that stands behind its first words where one is lent, if there are so many words.
    pub fn table_of<'a>(
        &self,
        words: &'a [u32],
        signed: bool,
    ) -> Option<(&'a [u32], Option<&'a [u32]>)> {
        if !signed {
            return Some((words, None));
        }
        let at = self.argument as usize;
        if words.len() < at {
            return None;
        }
        let (table, signature) = words.split_at(at);
        Some((table, Some(signature)))
    }

    fn asks(&self, what: u32) -> bool {
        self.fill & what != 0
    }

    // An entry whose first operand is given; a scope has its operand after both words of its mask, of which the second is given too.
    fn entry(&self, operand: u32) -> [u32; 8] {
        let Given {
            head,
            argument,
            second,
            ..
        } = *self;
        if head / 16 == SCOPE {
            [head, argument, second, operand, 0, 0, 0, 0]
        } else {
            [head, argument, operand, second, 0, 0, 0, 0]
        }
    }
}

// The n entries of which each but the last has the words given and the next entry as its first operand.
fn fill_entries(table: &mut [u32], n: u32, given: &Given)
    requires { 8 * n ≤ length table.old }
{
    for e in 1..n {
        put_row(table, e - 1, given.entry(e));
    }
}

// The entries below n from entry 2 on: each REC's body calls the REC before.
fn fill_recs(table: &mut [u32], n: u32)
    requires { 8 * n ≤ length table.old }
{
    for pair in 1..n / 2 {
        let rec = 2 * pair;
        put_row(table, rec, [16 * REC + 1, 0, rec + 1, 0, 0, 0, 0, 0]);
        put_row(table, rec + 1, [16 * CALL + 1, 0, rec - 2, 0, 0, 0, 0, 0]);
    }
}

// The n nodes of which each is the one child of the next; the first has none.
fn fill_chain(store: &mut [u32], n: u32)
    requires { 8 * n ≤ length store.old }
{
    for k in 1..n {
        put_row(store, k, [1, 1, k - 1, 0, 0, 0, 0, 0]);
    }
}

// The n nodes of which each has six children, those just below it; the first six have none.
fn fill_six(store: &mut [u32], n: u32)
    requires { 8 * n ≤ length store.old }
{
    for k in 6..n {
        put_row(
            store,
            k,
            [k % 65536, 6, k - 1, k - 2, k - 3, k - 4, k - 5, k - 6],
        );
    }
}

// Sets every word from `from` on.
pub fn spoil(words: &mut [u32], from: usize, word: u32) {
    if from <= words.len() {
        words[from..].fill(word);
    }
}

// Sets word k, if there is one.
pub(crate) fn set<N: Copy>(words: &mut [N], k: u32, value: N) {
    if (k as usize) < words.len() {
        words[k as usize] = value;
    }
}

// The lowest byte of each word.
pub fn put_bytes(bytes: &mut [u8], words: &[u32]) {
    for (b, w) in bytes.iter_mut().zip(words) {
        *b = (*w % 256) as u8;
    }
}

// A word for each byte.
pub fn put_words(words: &mut [u32], bytes: &[u8]) {
    for (w, b) in words.iter_mut().zip(bytes) {
        *w = *b as u32;
    }
}

// Makes the words of the store, but for those that the text names.
fn make_store(given: &Given, store: &mut [u32]) {
    let mark = given.mark as usize;
    if given.asks(PAST) {
        spoil(store, 8 * mark, 4294967295);
    }
    if given.asks(CHAIN) && mark <= store.len() / 8 {
        fill_chain(store, given.mark);
    }
    if given.asks(SIX) && mark <= store.len() / 8 {
        fill_six(store, given.mark);
    }
}

// Makes the words of the table, but for those that the text names.
fn make_table(given: &Given, table: &mut [u32]) {
    let rows = table.len() / 8;
    if given.asks(RECS) && rows <= 4097 {
        fill_recs(table, rows as u32);
    }
    if given.head != 0 && rows <= 4097 {
        fill_entries(table, rows as u32, given);
    }
    if given.asks(BEHIND) {
        spoil(table, given.argument as usize, given.second);
    }
}

// Sets each word that the text names.
// As it is: table, store and bindings stay three parameters here and in every call of a case; a struct of the three was tried, and the
// borrow checker's part of the proof does not cover a field that is lent while another of the same struct is.
fn patch(
    numbers: &mut Numbers,
    count: u32,
    table: &mut [u32],
    store: &mut [u32],
    bindings: &mut [u32],
) {
    for _ in 0..count {
        let slice = numbers.number();
        let k = numbers.number();
        let value = numbers.number();
        match slice {
            0 => set(table, k, value),
            1 => set(store, k, value),
            _ => set(bindings, k, value),
        }
    }
}

// Makes the words of a case.
pub fn make(
    given: &Given,
    numbers: &mut Numbers,
    table: &mut [u32],
    store: &mut [u32],
    bindings: &mut [u32],
) {
    make_store(given, store);
    make_table(given, table);
    patch(numbers, given.patches, table, store, bindings);
}
