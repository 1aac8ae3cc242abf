// One step of a walk over tree words, in preorder: what stands at a place, and where the nodes below it begin. Past the last of them,
// and past the words behind them, the next node of the same row begins.
ghost use Rattle.std.specs.Prelude.{◌≡◌, ◌≤◌, ◌<◌, length, get_or, drop};
ghost use Rattle.tree.specs.Walk.{arguments_of, below_of, headed_at, placed_at, past_of, step_at, cells_end, lines_of};

use crate::kinds::{
    NODE_CELL, NODE_FRAC, NODE_FUNC, NODE_GROUP, NODE_MATRIX, NODE_MISSING, NODE_SFUNC,
    NODE_SIGNED, NODE_SIMPLE, NODE_SYMBOL,
};

#[derive(Clone, Copy)]
pub struct Opened {
    // the node's kind; a fraction is 18
    pub kind: u32,
    // where its own words begin
    pub head: usize,
    // where the nodes below it begin, how many they are, and whether they are items
    pub from: usize,
    pub count: usize,
    pub items: bool,
    // how many words stand behind them: a matrix's column lines
    pub tail: usize,
}

// The word at i, or 0 past the end.
pub fn word(words: &[u32], i: usize) -> u32
    ensures { result ≡ get_or words.now i 0 }
{
    words.get(i).copied().unwrap_or(0)
}

// The words from `head` on.
pub fn own_words(words: &[u32], head: usize) -> &[u32]
    ensures { result.now ≡ drop head words.now }
{
    &words[head.min(words.len())..]
}

// `tail` words on, but not past the end.
pub fn past(words: &[u32], at: usize, tail: usize) -> usize
    ensures { result ≡ past_of (length words.now) at tail }
{
    at.saturating_add(tail).min(words.len())
}

fn arguments(script: u32) -> u32
    ensures value { result ≡ arguments_of script }
    ensures upper_bound { result ≤ 2 }
{
    match script {
        0 => 0,
        3 => 2,
        _ => 1,
    }
}

// How many nodes stand below one of this kind whose word 3 is `held`.
fn below(kind: u32, held: u32) -> u32
    ensures { result ≡ below_of kind held }
{
    match kind {
        NODE_MISSING..=NODE_SYMBOL => 0,
        NODE_SIGNED..=NODE_SFUNC => 1,
        NODE_SIMPLE | NODE_FUNC => 1 + arguments(held),
        NODE_GROUP..=NODE_CELL => held,
        _ => 2,
    }
}

// The node whose own words begin at `head`.
#[tactic(auto, unfolding(crate::specs::Walk::headed_at))]
fn headed(words: &[u32], head: usize) -> Opened
    requires { head ≤ length words.now }
    ensures { result ≡ headed_at words.now head }
{
    let kind = word(words, head);
    let count = below(kind, word(words, head + 3)) as usize;
    let is_matrix = kind == NODE_MATRIX;
    Opened {
        kind,
        head,
        from: head + if is_matrix { 8 } else { 6 },
        count,
        items: kind == NODE_GROUP || kind == NODE_CELL,
        tail: if is_matrix {
            word(words, head + 7) as usize
        } else {
            0
        },
    }
}

#[tactic(auto, unfolding(crate::specs::Walk::placed_at))]
fn placed(words: &[u32], at: usize, items: bool) -> Opened
    requires { at < length words.now }
    ensures { result ≡ placed_at words.now at items }
{
    if !items {
        return headed(words, at);
    }
    if word(words, at) != 1 {
        return headed(words, at + 1);
    }
    Opened {
        kind: NODE_FRAC,
        head: at,
        from: at + 1,
        count: 2,
        items: false,
        tail: 0,
    }
}

// The node at a place of a row of items, or of nodes that are none; None if no whole node stands there.
#[tactic(auto, unfolding(crate::specs::Walk::step_at))]
pub fn node_at(words: &[u32], at: usize, items: bool) -> Option<Opened>
    ensures { result ≡ step_at words.now at items }
{
    if at >= words.len() {
        return None;
    }
    let o = placed(words, at, items);
    if o.from <= words.len() { Some(o) } else { None }
}

// The end of `count` cells.
fn cells_end(words: &[u32], from: usize, count: usize) -> usize
    ensures { result ≡ cells_end words.now count from }
{
    let mut at = from;
    for _ in 0..count {
        if at >= words.len() {
            return at;
        }
        at += 6 + word(words, at + 4) as usize;
    }
    at
}

// The column lines of a matrix.
#[tactic(auto, using(std::proofs::lemmas::List::take_min), unfolding(crate::specs::Walk::lines_of))]
pub fn column_lines(words: &[u32], o: Opened) -> &[u32]
    ensures { result.now ≡ lines_of words.now o }
{
    let lines = own_words(words, cells_end(words, o.from, o.count));
    &lines[..o.tail.min(lines.len())]
}

// The column lines of the matrix whose own words begin at `head`.
pub fn lines_at(words: &[u32], head: usize) -> &[u32]
    ensures { result.now ≡ lines_of words.now (headed_at words.now head) }
{
    if head >= words.len() {
        return &[];
    }
    column_lines(words, headed(words, head))
}
