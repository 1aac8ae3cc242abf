// Words stored in a buffer, moved and cleared: all of them, or none if one would stand past its end.
#![tactic(auto)]

ghost use Rattle.std.specs.Prelude.{◌≡◌, ◌++◌, ◌+◌, ◌-◌, leb, length, take, replicate};
ghost use Rattle.buffer.specs.Buffer.{stored, shifted};

// n words from i on are within `len`.
pub fn fits(len: usize, i: usize, n: usize) -> bool
    ensures { result ≡ leb (i + n) len }
{
    n <= len && i <= len - n
}

pub fn put(tree: &mut [u32], i: usize, words: &[u32])
    ensures { tree.new ≡ stored tree.old i words.now }
{
    if fits(tree.len(), i, words.len()) {
        tree[i..i + words.len()].copy_from_slice(words);
    }
}

// Zeros from `from` on.
pub fn clear_from(b: &mut [u32], from: usize)
    ensures { b.new ≡ take from b.old ++ replicate (length b.old - from) 0 }
{
    if from < b.len() {
        b[from..].fill(0);
    }
}

// The first `end` words, `by` places on.
pub fn shift(tree: &mut [u32], end: usize, by: usize)
    ensures { tree.new ≡ shifted tree.old end by }
{
    if fits(tree.len(), by, end) {
        tree.copy_within(..end, by);
    }
}
