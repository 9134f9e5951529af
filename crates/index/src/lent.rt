// One lent slice: the words of n nodes and then the index, n heads and n nexts or more.
ghost use Rattle.std.specs.Prelude.{◌≡◌, ◌+◌, ◌-◌, ◌*◌, ◌<◌, ◌≤◌, length};
ghost use Rattle.std.proofs.Math.Option.{some, none};
ghost use Rattle.words.specs.Words.{cleared_from};
ghost use Rattle.meaning.specs.Shared.{node_with, full_for, number_for};
ghost use Rattle.index.specs.Lent.{Held, built, forgotten, made, Asked};

use crate::chains::Layout;
use words::{put_row, row};

// The nodes below the mark put in, from the first to the last, into an index that is zero.
pub fn build(lent: &mut [u32], n: u32, mark: u32)
    requires { Held lent.old n 0 × (mark ≤ n) }
    ensures { (lent.new ≡ built n 0 mark lent.old) × Held lent.new n mark }
{
    let layout = Layout {
        at: 8 * (n as usize),
        n,
    };
    for k in 0..mark {
        let r = row(lent, k);
        layout.link(lent, r, k);
    }
}

// The nodes from the mark on taken out, from the last to the first.
fn forget(lent: &mut [u32], n: u32, mark: u32, top: u32)
    requires { Held lent.old n top × (mark ≤ top) }
    ensures { (lent.new ≡ forgotten n mark (top - mark) lent.old) × Held lent.new n mark }
{
    let layout = Layout {
        at: 8 * (n as usize),
        n,
    };
    for k in (mark..top).rev() {
        let r = row(lent, k);
        layout.unlink(lent, r, k);
    }
}

// As it is: no Option, since what comes of asking is one of three, two of which carry a number.
// What comes of asking for a node: the number of the node that stands, or of the new one, or no room.
#[derive(Clone, Copy)]
pub enum Node {
    Stands(u32),
    Made(u32),
    Full,
}

// The node of these words at the mark: the one that stands below the mark with them, else a new one.
pub fn ask(lent: &mut [u32], n: u32, mark: u32, top: u32, r: [u32; 8]) -> Node
    requires { Held lent.old n top × (mark ≤ top) }
    ensures { Asked n mark top r lent.old result lent.new }
{
    let layout = Layout {
        at: 8 * (n as usize),
        n,
    };
    match layout.find(lent, lent, mark, top, r) {
        Some(k) => Node::Stands(k),
        None => {
            if n <= mark {
                return Node::Full;
            }
            forget(lent, n, mark, top);
            put_row(lent, mark, r);
            layout.link(lent, r, mark);
            Node::Made(mark)
        }
    }
}
