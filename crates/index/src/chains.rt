// Find, link and unlink, over an index that lies at a place of some slice.
ghost use Rattle.std.specs.Prelude.{◌≡◌, ◌+◌, ◌*◌, ◌<◌, ◌≤◌, length};
ghost use Rattle.meaning.specs.Shared.{eight, alike, node_with};
ghost use Rattle.checks.specs.Checked.{place_of};
ghost use Rattle.index.specs.Key.{home};
ghost use Rattle.index.specs.Chains.{Indexed, linked, unlinked};

use crate::key::home_of;
use words::word;

// Node k has these words.
pub fn has(store: &[u32], k: u32, r: [u32; 8]) -> bool
    ensures { result ≡ alike (eight store.now k) r }
{
    // As it is: comparing the row read whole, `row(store, k) == r`, was tried and takes 1.6 times as long.
    (0..8).all(|j| word(store, k, j) == r[j as usize])
}

// Where an index lies in a slice: n heads from place `at` on, and then n nexts.
#[derive(Clone, Copy)]
pub(crate) struct Layout {
    pub(crate) at: usize,
    pub(crate) n: u32,
}

impl Layout {
    // The node below m with these words, in an index of the nodes below `top`. A node from m on is passed over.
    pub(crate) fn find(
        self,
        store: &[u32],
        index: &[u32],
        m: u32,
        top: u32,
        r: [u32; 8],
    ) -> Option<u32>
        requires { Indexed store.now index.now self.at self.n top × (m ≤ top) }
        ensures { place_of result ≡ node_with store.now r m }
    {
        let nexts = self.at + (self.n as usize);
        let mut x = index[self.at + home_of(self.n, r)];
        // As it is: this follows the links of a chain; an iterator over it would hold this very loop.
        while x != 0 {
            let k = x - 1;
            if k < m && has(store, k, r) {
                return Some(k);
            }
            x = index[nexts + (k as usize)];
        }
        None
    }

    // Node k, whose words are r, put first into its chain.
    pub(crate) fn link(self, index: &mut [u32], r: [u32; 8], k: u32)
        requires { (self.at + self.n + self.n ≤ length index.old) × (k < self.n) }
        ensures { index.new ≡ linked index.old self.at self.n (home self.n r) k }
    {
        let p = home_of(self.n, r);
        let old = index[self.at + p];
        index[self.at + (self.n as usize) + (k as usize)] = old;
        index[self.at + p] = k + 1;
    }

    // Node k, whose words are r, the first of its chain, taken out of it.
    pub(crate) fn unlink(self, index: &mut [u32], r: [u32; 8], k: u32)
        requires { (self.at + self.n + self.n ≤ length index.old) × (k < self.n) }
        ensures { index.new ≡ unlinked index.old self.at self.n (home self.n r) k }
    {
        let p = home_of(self.n, r);
        index[self.at + p] = index[self.at + (self.n as usize) + (k as usize)];
    }
}
