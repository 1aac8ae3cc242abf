// Words of the tree in the readers' buffer, which has room for all of them.
ghost use Rattle.std.specs.Prelude.{◌≡◌, true, ◌+◌, ◌≤◌, length};
ghost use Rattle.std.proofs.lemmas.List.Edits.{sets};
ghost use Rattle.leaves.specs.Leaves.{node_words, leaf_ends, leaf_words};
ghost use Rattle.nodes.specs.Nodes.{group_words, matrix_words};
ghost use Rattle.parse.specs.Columns.{SplitReady, Splits};
ghost use Rattle.parse.specs.Meet.{Gapped};

use crate::cursor::{Gap, Part};
use columns::Split;
use leaves::{leaf_ends, put_leaf, put_node};
use lookahead::list::List;
use reading_cursor::Cursor;

#[tactic(auto, using(buffer::proofs::Stores::stored_in))]
pub(crate) fn put(tree: &mut [u32], i: usize, words: &[u32])
    requires { i + length words.now ≤ length tree.old }
    ensures { tree.new ≡ sets tree.old i words.now }
{
    buffer::put(tree, i, words);
}

// The leaf of the entry i, of kind k.
#[tactic(auto, using(buffer::proofs::Stores::stored_in))]
pub(crate) fn leaf(
    list: &List<'_>,
    work: &[u32],
    tree: &mut [u32],
    c: Cursor,
    e: usize,
    i: usize,
    k: u32,
) -> Part
    requires { e + 6 ≤ length tree.old }
    ensures value { result ≡ record { cur = c; end = e + 6; ends = leaf_ends k } }
    ensures tree_after { tree.new ≡ sets tree.old e (leaf_words list.now.tok.now work.now i k) }
{
    put_leaf(list, work, tree, e, i, k);
    Part {
        cur: c,
        end: e + 6,
        ends: leaf_ends(k),
    }
}

// The node of the entry i before its arguments, of which g is the last: its kind, its span and one word more.
#[tactic(auto, using(buffer::proofs::Stores::stored_in))]
pub(crate) fn node_before(
    list: &List<'_>,
    work: &[u32],
    tree: &mut [u32],
    e: usize,
    kind: u32,
    i: usize,
    extra: u32,
    g: Part,
) -> Part
    requires { e + 6 ≤ length tree.old }
    ensures value { result ≡ record { cur = g.cur; end = g.end; ends = true } }
    ensures tree_after { tree.new ≡ sets tree.old e (node_words list.now.tok.now work.now i kind extra) }
{
    put_node(list, work, tree, e, kind, i, extra);
    Part { ends: true, ..g }
}

// A group from the bracket i to the bracket j; to none, if j is no entry.
#[tactic(auto, using(buffer::proofs::Stores::stored_in), unfolding(nodes::specs::Nodes::group_words))]
#[inline(always)]
pub(crate) fn put_group(
    list: &List<'_>,
    work: &[u32],
    tree: &mut [u32],
    e: usize,
    i: usize,
    j: usize,
    count: u32,
)
    requires { e + 6 ≤ length tree.old }
    ensures { tree.new ≡ sets tree.old e (group_words list.now.tok.now work.now list.now.n i j count) }
{
    nodes::put_group(list, work, tree, e, i, j, count);
}

// A matrix from the bracket i to the bracket j.
#[tactic(auto, using(buffer::proofs::Stores::stored_in))]
pub(crate) fn put_matrix(
    list: &List<'_>,
    work: &[u32],
    tree: &mut [u32],
    e: usize,
    i: usize,
    j: usize,
    split: Split,
)
    requires e_in_bounds { e + 8 ≤ length tree.old }
    requires cells_bound { split.cells ≤ 4096 }
    requires cols_bound { split.cols ≤ 4096 }
    requires lines_bound { split.lines ≤ 4096 }
    ensures { tree.new ≡ sets tree.old e (matrix_words list.now.tok.now work.now i j split.cells split.cols split.lines) }
{
    nodes::put_matrix(
        list,
        work,
        tree,
        e,
        i,
        j,
        split.cells as u32,
        split.cols as u32,
        split.lines as u32,
    );
}

// The Space before the entry i, if it is kept.
pub(crate) fn put_space(
    list: &List<'_>,
    work: &[u32],
    tree: &mut [u32],
    i: usize,
    e: usize,
    first: bool,
) -> Gap
    requires { e + 7 ≤ length tree.old }
    ensures { Gapped list.now.tok.now work.now list.now.n first i e tree.old tree.new result }
{
    if nodes::put_space(list, work, tree, i, e, first) {
        Gap {
            end: e + 7,
            items: 1,
        }
    } else {
        Gap { end: e, items: 0 }
    }
}

// "become column lines, if some but not all columns are such": of the cells from `from` up to `end`, with the lines behind them.
pub(crate) fn split_column_lines(
    text: &[u8],
    tree: &mut [u32],
    from: usize,
    end: usize,
    cells: usize,
    cols: usize,
) -> Split
    requires { SplitReady tree.old from end cells cols }
    ensures { Splits text.now tree.old from end cells cols tree.new result }
{
    columns::split_column_lines(text, tree, from, end, cells, cols)
}
