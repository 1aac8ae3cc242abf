// Tests of an entry by its kind.
ghost use Rattle.std.specs.Prelude.{◌≡◌, ◌+◌, not, ◌&&◌};
ghost use Rattle.lookahead.specs.Tests.{next_kind, test_at, is_kind, heads_kind, marks_kind, begins_kind, leaf_only, joins_kind, plain_at, over_at, look_at, opening, prefix_stop, takes_one};

use crate::depth::MAX_ITEM_DEPTH;
use crate::list::List;
use records::record::kind_at;
use tokens::kinds::{
    CLOSE_BRACKET, FUNCTION, NUMBER, OPEN_BRACKET, OPEN_CLOSE_BRACKET, SEP, SIGN, SPACE, SUB,
    SUPER, UNARY,
};

// The entry at i of n is there and of kind k.
#[tactic(auto, unfolding(crate::specs::Tests::test_at))]
pub fn is_at(tok: &[u32], work: &[u32], n: usize, i: usize, k: u32) -> bool
    ensures { result ≡ test_at tok.now work.now n (is_kind k) i }
{
    i < n && kind_at(tok, work, i) == k
}

fn begins(k: u32, stop: bool) -> bool
    ensures { result ≡ begins_kind stop k }
{
    !(k == CLOSE_BRACKET || k == SPACE || stop && k == SEP)
}

fn is_leaf(k: u32) -> bool
    ensures { result ≡ leaf_only k }
{
    k >= NUMBER && k < SIGN
}

// How an item begins: it is one leaf, none begins, or the readers have to see.
#[derive(Clone, Copy, PartialEq, Eq)]
pub enum Look {
    Plain,
    Over,
    Other,
}

impl List<'_> {
    // The kind of the entry at i, or that of a Space if none is there.
    #[tactic(auto, unfolding(crate::specs::Tests::next_kind))]
    fn next_kind(&self, work: &[u32], i: usize) -> u32
        ensures { result ≡ next_kind self.now.tok.now work.now self.now.n i }
    {
        if i >= self.n {
            return SPACE;
        }
        kind_at(self.tok, work, i)
    }

    // The entry at i is there and of kind k.
    pub fn is_at(&self, work: &[u32], i: usize, k: u32) -> bool
        ensures { result ≡ test_at self.now.tok.now work.now self.now.n (is_kind k) i }
    {
        is_at(self.tok, work, self.n, i, k)
    }

    // The entry at i heads a scripted part.
    pub fn heads_at(&self, work: &[u32], i: usize, sign: bool) -> bool
        ensures { result ≡ test_at self.now.tok.now work.now self.now.n (heads_kind sign) i }
    {
        let k = self.next_kind(work, i);
        k == FUNCTION || sign && k == SIGN
    }

    // The entry at i marks a script.
    pub fn marks_at(&self, work: &[u32], i: usize) -> bool
        ensures { result ≡ test_at self.now.tok.now work.now self.now.n marks_kind i }
    {
        let k = self.next_kind(work, i);
        k == SUPER || k == SUB
    }

    // The entry at i begins a simple expression.
    pub fn begins_at(&self, work: &[u32], i: usize, stop: bool) -> bool
        ensures { result ≡ test_at self.now.tok.now work.now self.now.n (begins_kind stop) i }
    {
        begins(self.next_kind(work, i), stop)
    }

    // The entry at i is a leaf by its kind, and what follows does not join it.
    fn stands_alone(&self, work: &[u32], i: usize) -> bool
        ensures { result ≡ (test_at self.now.tok.now work.now self.now.n leaf_only i && not (test_at self.now.tok.now work.now self.now.n joins_kind (i + 1))) }
    {
        is_leaf(self.next_kind(work, i)) && self.next_kind(work, i + 1) >= SEP
    }

    // The entry at i is an item by itself, read at this depth.
    #[tactic(auto, unfolding(crate::specs::Tests::plain_at))]
    pub fn is_plain(&self, work: &[u32], depth: usize, i: usize) -> bool
        ensures { result ≡ plain_at self.now.tok.now work.now self.now.n depth i }
    {
        depth < MAX_ITEM_DEPTH && self.stands_alone(work, i)
    }

    // No item begins at i, read at this depth.
    #[tactic(auto, unfolding(crate::specs::Tests::over_at))]
    pub fn is_over(&self, work: &[u32], depth: usize, stop: bool, i: usize) -> bool
        ensures { result ≡ over_at self.now.tok.now work.now self.now.n depth stop i }
    {
        depth < MAX_ITEM_DEPTH && !self.begins_at(work, i, stop)
    }

    // The same as `is_plain` and `is_over`, by one look at the entry's kind.
    pub fn first_look(&self, work: &[u32], depth: usize, stop: bool, i: usize) -> Look
        ensures { result ≡ look_at self.now.tok.now work.now self.now.n depth stop i }
    {
        if depth >= MAX_ITEM_DEPTH {
            return Look::Other;
        }
        let k = self.next_kind(work, i);
        if is_leaf(k) {
            if self.next_kind(work, i + 1) < SEP {
                return Look::Other;
            }
            return Look::Plain;
        }
        if begins(k, stop) {
            return Look::Other;
        }
        Look::Over
    }
}

// A token of kind k opens a group: a bracket or a bar.
pub fn opens(k: u32) -> bool
    ensures { result ≡ opening k }
{
    k == OPEN_BRACKET || k == OPEN_CLOSE_BRACKET
}

// Whether the one argument of a token of kind k ends at a separator: a sign's does where the sign's own reader does.
pub fn prefix_stop(k: u32, stop: bool) -> bool
    ensures { result ≡ prefix_stop k stop }
{
    k == SIGN && stop
}

// A token of kind k takes one argument. `sign`: a sign here prefixes.
pub fn takes_one(k: u32, sign: bool) -> bool
    ensures { result ≡ takes_one k sign }
{
    k == UNARY || k == FUNCTION || k == SIGN && sign
}
