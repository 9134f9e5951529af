// Variables that a line has bound, in a tree by the bits of their numbers. Node n, from 1 on, holds the variable `keys[n]`. A
// variable's lowest twelve bits choose its root among the links, and each further bit one of a node's two links; so no way is
// longer than 21 nodes, whatever the variables are. Link 0 holds how many nodes there are.
#![tactic(auto)]

ghost use Rattle.std.specs.Prelude.{◌≡◌, ◌≤◌, get_or, length};

// Nodes, the first of which is none; roots; link 0, the roots and two links a node.
pub const NODES: usize = 16384;

pub const ROOTS: usize = 4096;

pub const LINKS: usize = 36865;

// Word i; 0 outside.
fn at(words: &[u32], i: usize) -> u32
    ensures { result ≡ get_or words.now i 0 }
{
    words.get(i).copied().unwrap_or(0)
}

// How many of the keys are below x.
fn keys_below(keys: &[u32], x: usize) -> usize
    ensures { result ≤ length keys.now }
{
    keys.iter().filter(|k| (**k as usize) < x).count()
}

// A number, at most `below`, below which about half of the keys are.
fn middle(keys: &[u32], below: usize) -> usize
    ensures { result ≤ below }
{
    let mut low: usize = 0;
    let mut high = below;
    while 1 < high - low {
        let mid = low + (high - low) / 2;
        if keys_below(keys, mid) <= NODES / 2 {
            low = mid;
        } else {
            high = mid;
        }
    }
    low
}

// Where a variable's way ends: at its node, or at the link that would lead to it.
#[derive(Clone, Copy, PartialEq, Eq)]
pub enum Way {
    Found,
    Missing(usize),
}

// The tree: the nodes' variables, and the links.
#[derive(Drop)]
pub struct Tree {
    pub keys: [u32; NODES],
    pub links: [u32; LINKS],
}

impl Tree {
    ghost use Rattle.variable_tree.specs.Tree.{Keeps, KeepsOr, FoundIn};
    ghost use Rattle.variable_tree.specs.Way.{is_found};

    pub fn way_to(&self, v: u32) -> Way
        ensures { FoundIn self.now.keys v (is_found result) }
    {
        let mut link = 1 + (v % 4096) as usize;
        let mut bits = v / 4096;
        for _turn in 0..21 {
            let node = at(&self.links, link) as usize;
            if node == 0 {
                return Way::Missing(link);
            }
            if at(&self.keys, node) == v {
                return Way::Found;
            }
            link = 1 + ROOTS + 2 * node + (bits % 2) as usize;
            bits /= 2;
        }
        Way::Missing(LINKS)
    }

    // Whether v is a node's variable.
    pub fn holds(&self, v: u32) -> bool
        ensures { FoundIn self.now.keys v result }
    {
        self.way_to(v) == Way::Found
    }

    // A new node for v at a link. Whether there was room.
    fn put(&mut self, link: usize, v: u32) -> bool
        ensures { KeepsOr self.old.keys v self.new.keys }
    {
        let node = self.links[0] as usize + 1;
        if NODES <= node || LINKS <= link {
            return false;
        }
        self.keys[node] = v;
        self.links[link] = node as u32;
        self.links[0] = node as u32;
        true
    }

    // The tree with v, where v is below a number and there is room.
    fn put_below(&mut self, v: u32, below: usize)
        ensures { KeepsOr self.old.keys v self.new.keys }
    {
        if below <= v as usize {
            return;
        }
        if let Way::Missing(link) = self.way_to(v) {
            self.put(link, v);
        }
    }

    // The tree anew, with those of its variables that are below a number.
    fn keep_below(&mut self, below: usize)
        ensures { Keeps self.old.keys self.new.keys }
    {
        self.links.fill(0);
        for i in 1..NODES {
            self.put_below(self.keys[i], below);
        }
    }

    // The tree with v. Where it is full, its greater half goes: it then holds no variable from the returned number on.
    pub fn add(&mut self, below: usize, v: u32) -> usize
        ensures { (result ≤ below) × KeepsOr self.old.keys v self.new.keys }
    {
        let Way::Missing(link) = self.way_to(v) else {
            return below;
        };
        if self.put(link, v) {
            return below;
        }
        let half = middle(&self.keys, below);
        self.keep_below(half);
        self.put_below(v, half);
        half
    }
}
