// The store check: each test that document 01 sets a good node, the lowest node below the mark that fails one, and the
// answer. Each word below the mark is read once.
ghost use Rattle.std.specs.Prelude.{◌≡◌, ◌+◌, ◌*◌, ◌≤◌, length};
ghost use Rattle.words.specs.Tests.{every, rejected};
ghost use Rattle.checks.specs.Good.{child, held_fits, good_node};
ghost use Rattle.checks.specs.Checked.{place_of, store_length_fits, store_checked};
ghost use Rattle.checks.specs.Numbers.{checked_of};

use crate::refusal::Refusal;
use crate::search::lowest;

// The word w fits as word 2 + i of node k, which has n children: a child below it, or a zero after the last.
fn held_fits(k: u32, n: u32, i: u32, w: u32) -> bool
    ensures { result ≡ held_fits k n i w }
{
    let limit = if i < n { k } else { 1 };
    w < limit
}

// The words of node k from word 2 on fit its n children. All of them are tested, with no branch between, so that a processor
// tests several at once.
fn all_held_fit(store: &[u32], k: u32, n: u32) -> bool
    requires { 8 * k + 8 ≤ length store.now }
    ensures { result ≡ every (λ i. held_fits k n i (child store.now k i)) 0 6 }
{
    let at = 8 * (k as usize);
    let mut good = true;
    for i in 0..6 {
        good &= held_fits(k, n, i, store[at + 2 + (i as usize)]);
    }
    good
}

// Node k, which lies inside the store, is good.
fn node_fits(store: &[u32], k: u32) -> bool
    requires { 8 * k + 8 ≤ length store.now }
    ensures { result ≡ good_node store.now k }
{
    let at = 8 * (k as usize);
    let n = store[at + 1];
    (store[at] <= 65535) & ((n <= 6) & all_held_fit(store, k, n))
}

// The store is a multiple of 8 and at most 1,048,576 words.
pub fn store_length_fits(n: usize) -> bool
    ensures { result ≡ store_length_fits n }
{
    n % 8 == 0 && n <= 1048576
}

// The store check.
pub fn check_store(store: &[u32], mark: u32) -> Result<(), Refusal>
    ensures { checked_of result ≡ store_checked store.now mark }
{
    if !store_length_fits(store.len()) || store.len() / 8 < (mark as usize) {
        return Err(Refusal::Sizes);
    }
    match lowest(mark, |k| node_fits(store, k)) {
        Some(k) => Err(Refusal::Node(k)),
        None => Ok(()),
    }
}
