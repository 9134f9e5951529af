// What an entry of the table and a node of the store share: words that are used, and zeros after them.
ghost use Rattle.std.specs.Prelude.{◌≡◌, ◌+◌, ◌≤◌, ◌<◌};
ghost use Rattle.words.specs.Words.{word_at};
ghost use Rattle.checks.specs.Good.{zeros_from};

use words::word;

// Word 2 + i of row k: a child of a node, or a word of an entry.
pub fn held(rows: &[u32], k: u32, i: u32) -> u32
    requires { i < 6 }
    ensures { result ≡ word_at rows.now k (2 + i) }
{
    word(rows, k, 2 + i)
}

// The words of row k from word 2 + n on are zero.
pub(crate) fn unused_zero(rows: &[u32], k: u32, n: u32) -> bool
    requires { n ≤ 6 }
    ensures { result ≡ zeros_from rows.now k (2 + n) }
{
    (2 + n..8).all(|j| word(rows, k, j) == 0)
}
