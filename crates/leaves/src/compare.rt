// Term comparison: first the pair, then child pairs left to right, ending at the first difference. It calls itself on the child
// pairs. Their node numbers are lower, since children lie below their parent; so they stand in the store as their parents do. That it
// ends is by the nesting, which falls at each call. Nesting and units are counted as for every visit. The last child pair goes round the
// loop, one deeper as the others, and takes no new frame of the machine's stack.
ghost use Rattle.state.specs.Visits.{Compares, Stored};

use state::answers::{Answer, answer_of, done, failure, no_nesting, no_units};
use state::reading::{count, node_word};

// Whether nodes a and b are the same term. The answer's node means nothing; its units count.
pub(crate) fn same(store: &[u32], a: u32, b: u32, units: u32, deep: u32) -> u64
    requires { Stored store.now a × Stored store.now b }
    ensures { Compares store.now a b units deep result }
{
    let mut x = a;
    let mut y = b;
    let mut left = units;
    let mut d = deep;
    loop {
        if left == 0 {
            return no_units();
        }
        if d == 0 {
            return no_nesting(left);
        }
        left -= 1;
        d -= 1;
        let n = count(store, x);
        if node_word(store, x, 0) != node_word(store, y, 0) || n != count(store, y) {
            return failure(left);
        }
        if n == 0 {
            return done(0, left);
        }
        for i in 0..n - 1 {
            // The call gets a copy of the slice, so that the slice itself stays in registers.
            let words = store;
            let got = same(
                words,
                node_word(store, x, 2 + i),
                node_word(store, y, 2 + i),
                left,
                d,
            );
            let Answer::Done(_, rest) = answer_of(got) else {
                return got;
            };
            left = rest;
        }
        x = node_word(store, x, 1 + n);
        y = node_word(store, y, 1 + n);
    }
}
