// Eight words to a row: a node of the store, an entry of the table. A read outside the words answers 0.
#![tactic(auto)]

ghost use Rattle.std.specs.Prelude.{◌≡◌, ◌+◌, ◌*◌, ◌≤◌, ◌<◌, length};
ghost use Rattle.words.specs.Words.{word_at, row_at, put_row, cleared_from};

// Word j of row k; 0 outside the words.
pub fn word(words: &[u32], k: u32, j: u32) -> u32
    requires { j < 8 }
    ensures { result ≡ word_at words.now k j }
{
    words
        .get(8 * (k as usize) + (j as usize))
        .copied()
        .unwrap_or(0)
}

// The eight words of row k; 0 outside the words.
pub fn row(words: &[u32], k: u32) -> [u32; 8]
    ensures { result ≡ row_at words.now k }
{
    [
        word(words, k, 0),
        word(words, k, 1),
        word(words, k, 2),
        word(words, k, 3),
        word(words, k, 4),
        word(words, k, 5),
        word(words, k, 6),
        word(words, k, 7),
    ]
}

// The eight words of r written as row k, which lies inside the words.
pub fn put_row(words: &mut [u32], k: u32, r: [u32; 8])
    requires { 8 * k + 8 ≤ length words.old }
    ensures { words.new ≡ put_row words.old k r }
{
    let at = 8 * (k as usize);
    words[at..at + 8].copy_from_slice(&r);
}

// Zeros from place `from` to the end.
pub fn clear_from(words: &mut [u32], from: usize)
    ensures { words.new ≡ cleared_from words.old from }
{
    let from = from.min(words.len());
    words[from..].fill(0);
}
