// A given node with an earlier one's words. The lent index must stay as it is where one is found, so the search has an index
// of its own: a small one for few nodes, else one for as many as a store can have.
ghost use Rattle.std.specs.Prelude.{◌≡◌, ◌/◌, ◌^◌, ◌<◌, ◌≤◌, min};
ghost use Rattle.checks.specs.Checked.{place_of};
ghost use Rattle.meaning.specs.Shared.{twin};
ghost use Rattle.index.specs.Chains.{Indexed};

use crate::chains::Layout;
use words::row;

// The lowest node below the mark with an earlier one's words, by an index that is empty.
fn twin_by(store: &[u32], index: &mut [u32], n: u32, mark: u32) -> Option<u32>
    requires { Indexed store.now index.old 0 n 0 × (mark ≤ n) }
    ensures { place_of result ≡ twin store.now mark }
{
    let layout = Layout { at: 0, n };
    for k in 0..mark {
        let r = row(store, k);
        if layout.find(store, index, k, k, r).is_some() {
            return Some(k);
        }
        layout.link(index, r, k);
    }
    None
}

// The same by an index of this many words, which holds half as many nodes. It calls itself where there are more: a function that does is
// not drawn into its caller, whose frame would hold the index for the whole run.
fn twin_within<const WORDS: usize>(store: &[u32], mark: u32) -> Option<u32>
    requires { (2 ≤ WORDS) × (WORDS < 2 ^ 32) }
    ensures { place_of result ≡ twin store.now (min mark (WORDS / 2)) }
{
    let n = (WORDS / 2) as u32;
    if n < mark {
        return twin_within::<WORDS>(store, n);
    }
    let mut index = [0u32; WORDS];
    twin_by(store, &mut index, n, mark)
}

// The lowest node below the mark with an earlier one's words.
pub fn first_twin(store: &[u32], mark: u32) -> Option<u32>
    requires { mark ≤ 131072 }
    ensures { place_of result ≡ twin store.now mark }
{
    if mark <= 512 {
        twin_within::<1024>(store, mark)
    } else {
        twin_within::<262144>(store, mark)
    }
}
