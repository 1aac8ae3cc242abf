// Nodes of the tree with nodes below them, and the Space between items: all the words of a node, or none.
#![tactic(auto)]

ghost use Rattle.std.specs.Prelude.{◌≡◌, [], ◌∷◌, cond};
ghost use Rattle.records.specs.Record.{start_of, len_of};
ghost use Rattle.buffer.specs.Buffer.{stored};
ghost use Rattle.nodes.specs.Nodes.{group_words, matrix_words, gap_words, gap_items};

use buffer::{fits, put};
use leaves::put_node;
use lookahead::list::List;
use records::record::{len_at, start_at};
use records::space::{space_len, space_start};
use tree::kinds::{NODE_GROUP, NODE_MATRIX, NODE_SPACE};

// A node from the bracket i to the bracket j: its kind, their spans, and how many nodes are below.
fn put_between(
    list: &List<'_>,
    work: &[u32],
    tree: &mut [u32],
    e: usize,
    kind: u32,
    i: usize,
    j: usize,
    count: u32,
)
    ensures { tree.new ≡ stored tree.old e (kind ∷ start_of list.now.tok.now work.now i ∷ len_of list.now.tok.now work.now i ∷ count ∷ start_of list.now.tok.now work.now j ∷ len_of list.now.tok.now work.now j ∷ []) }
{
    let start = start_at(list.tok, work, i);
    let len = len_at(list.tok, work, i);
    let right = start_at(list.tok, work, j);
    let right_len = len_at(list.tok, work, j);
    put(tree, e, &[kind, start, len, count, right, right_len]);
}

// A group from the bracket i to the bracket j; to none, if j is no entry. Inline, like `put_node` in it.
#[tactic(auto, unfolding(crate::specs::Nodes::group_words))]
#[inline(always)]
pub fn put_group(
    list: &List<'_>,
    work: &[u32],
    tree: &mut [u32],
    e: usize,
    i: usize,
    j: usize,
    count: u32,
)
    ensures { tree.new ≡ stored tree.old e (group_words list.now.tok.now work.now list.now.n i j count) }
{
    if j < list.n {
        put_between(list, work, tree, e, NODE_GROUP, i, j, count);
    } else {
        put_node(list, work, tree, e, NODE_GROUP, i, count);
    }
}

// A matrix from the bracket i to the bracket j.
pub fn put_matrix(
    list: &List<'_>,
    work: &[u32],
    tree: &mut [u32],
    e: usize,
    i: usize,
    j: usize,
    cells: u32,
    cols: u32,
    lines: u32,
)
    ensures { tree.new ≡ stored tree.old e (matrix_words list.now.tok.now work.now i j cells cols lines) }
{
    if fits(tree.len(), e, 8) {
        put_between(list, work, tree, e, NODE_MATRIX, i, j, cells);
        put(tree, e + 6, &[cols, lines]);
    }
}

// The Space before the entry i, if it is kept; whether it is.
#[tactic(auto, using(buffer::proofs::Stores::stored_none), unfolding(crate::specs::Nodes::gap_words, crate::specs::Nodes::gap_items, crate::specs::Nodes::gap_len))]
pub fn put_space(
    list: &List<'_>,
    work: &[u32],
    tree: &mut [u32],
    i: usize,
    e: usize,
    first: bool,
) -> bool
    ensures value { cond result 1 0 ≡ gap_items list.now.tok.now work.now list.now.n first i }
    ensures tree_after { tree.new ≡ stored tree.old e (gap_words list.now.tok.now work.now list.now.n first i) }
{
    if first || list.n <= i {
        return false;
    }
    let len = space_len(list.tok, work, i);
    if len == 0 {
        return false;
    }
    let start = space_start(list.tok, work, i);
    put(tree, e, &[0, NODE_SPACE, start, len, 0, 0, 0]);
    true
}
