// Where a node stands in the words, and what can be told of it there at once.
ghost use Rattle.std.specs.Prelude.{◌≡◌, true, ◌≤◌, length};
ghost use Rattle.tree.specs.Tree.{Script, Head};
ghost use Rattle.tree.specs.Walk.{head_at};
ghost use Rattle.mathml.specs.Walks.{OwnPlace, InnerPlace, count_at};

use tree::kinds::{NODE_SIGNED, NODE_SIMPLE};
use tree::walk::{own_words, word};

// A place of a row of items, or of nodes that are none.
#[derive(Clone, Copy)]
pub(crate) struct Place {
    pub at: usize,
    pub items: bool,
}

// Where the own words of the node at a place begin; the words' end where no such words are, as of a fraction.
fn own_place(words: &[u32], at: usize, items: bool) -> usize
    requires { at ≤ length words.now }
    ensures { OwnPlace words.now at items result }
{
    if items {
        let n = words.len();
        if at == n {
            return n;
        }
        if words[at] == 1 {
            return n;
        }
        return at + 1;
    }
    at
}

// Whether the node at a place has no children, by its kind.
pub(crate) fn is_leaf(words: &[u32], at: usize, items: bool) -> bool
    requires { at ≤ length words.now }
    ensures { result ≡ true → count_at words.now at items ≡ 0 }
{
    let head = own_place(words, at, items);
    head < words.len() && words[head] < NODE_SIGNED
}

// A simple without script.
fn is_bare(words: &[u32], kind: u32, head: usize) -> bool
    ensures { result ≡ true → (kind ≡ 13) × (head_at words.now kind head ≡ Head.simple Script.none) }
{
    kind == NODE_SIMPLE && word(own_words(words, head), 3) == 0
}

// A simple without script is written as the node in it: where that begins. Any other node's place.
pub(crate) fn inner_place(words: &[u32], at: usize, items: bool) -> Place
    requires { at ≤ length words.now }
    ensures { InnerPlace words.now at items result }
{
    let head = own_place(words, at, items);
    if is_bare(words, word(words, head), head) {
        if head + 6 <= words.len() {
            return Place {
                at: head + 6,
                items: false,
            };
        }
    }
    Place { at, items }
}
