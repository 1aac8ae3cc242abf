// A part of what a node is written as, its children aside: what stands before a child, or what closes the node; and where that child
// begins.
ghost use Rattle.std.specs.Prelude.{◌≡◌, ◌≤◌, length};
ghost use Rattle.writer.specs.Put.{Put};
ghost use Rattle.tree.specs.Walk.{head_at};
ghost use Rattle.mathml_rules.specs.Pieces.{written};
ghost use Rattle.mathml_rules.specs.Parts.{swaps};
ghost use Rattle.mathml.specs.Walks.{last_part, begun, row_left, ChildPlace, ChildPut, LastPut, PartPut};

use crate::pass::node_end;
use crate::place::inner_place;
use crate::source::Source;
use mathml_heads::below::cells_left;
use mathml_heads::node::Node;
use mathml_rules::Mode;
use tree::kinds::NODE_SIGNED;
use tree::walk::{node_at, past};

// kept: `more` beside the place, since `at` and `end` are read of every part: an enum would hold them in both variants
#[derive(Clone, Copy)]
pub(crate) struct Part {
    // whether a child follows: its place, whether it is an item, its mode, and the cells left in its row behind it
    pub more: bool,
    pub at: usize,
    pub items: bool,
    pub mode: Mode,
    pub left: usize,
    // where the bytes put end
    pub end: usize,
}

// The last part of a node that ends at `at`.
fn no_more(at: usize, end: usize, mode: Mode) -> Part
    ensures { result ≡ last_part at end mode }
{
    Part {
        more: false,
        at,
        items: false,
        mode,
        left: 0,
        end,
    }
}

// Before child 0 stands what opens the node.
fn put_begun(node: &Node<'_>, out: &mut [u8], place: usize, m: Mode, i: usize) -> usize
    ensures { Put out.old place out.new result (written (begun node.now.text.now m (head_at node.now.words.now node.now.kind node.now.head) i)) }
{
    if i == 0 {
        return node.put_opening(out, place, m);
    }
    place
}

// Where child i begins, if the one before it ends at `next`. Where two children are exchanged the first is passed over to find the second.
fn child_place(node: &Node<'_>, from: usize, i: usize, next: usize) -> usize
    requires from_in_bounds { from ≤ length node.now.words.now }
    requires next_in_bounds { next ≤ length node.now.words.now }
    ensures { ChildPlace node.now.words.now (swaps node.now.text.now (head_at node.now.words.now node.now.kind node.now.head)) from i next result }
{
    if node.swaps_children() {
        if i == 1 {
            return from;
        }
        let second = node_end(node.words, from);
        if i == 0 {
            return second;
        }
        return node_end(node.words, second);
    }
    if next < from { from } else { next }
}

// The cells left in the row of child i.
fn row_left(node: &Node<'_>, i: usize, left: usize) -> usize
    ensures { result ≡ row_left (head_at node.now.words.now node.now.kind node.now.head) i left }
{
    if i == 0 {
        return node.columns();
    }
    left
}

// What stands before child i, which begins at `at`.
fn put_child(
    node: &Node<'_>,
    out: &mut [u8],
    place: usize,
    m: Mode,
    i: usize,
    left: usize,
    at: usize,
    items: bool,
) -> Part
    requires { at ≤ length node.now.words.now }
    ensures { ChildPut node.now.words.now node.now.text.now out.old place node.now.kind node.now.head m i left at items out.new result }
{
    let end = node.put_before(out, place, i, left);
    let child = inner_place(node.words, at, items);
    Part {
        more: true,
        at: child.at,
        items: child.items,
        mode: node.mode_below(m, i),
        left: cells_left(node.columns(), left),
        end,
    }
}

// What closes the node, whose last child ends at `at`.
fn put_last(node: &Node<'_>, out: &mut [u8], place: usize, m: Mode, at: usize, tail: usize) -> Part
    ensures { LastPut node.now.words.now node.now.text.now out.old place node.now.kind node.now.head m at tail out.new result }
{
    let end = node.put_closing(out, place, m);
    no_more(past(node.words, at, tail), end, m)
}

// The part before child i of the node at a place, or behind its last child, if i is their number.
pub(crate) fn put_part(
    source: &Source<'_>,
    out: &mut [u8],
    place: usize,
    at: usize,
    items: bool,
    m: Mode,
    i: usize,
    left: usize,
    next: usize,
) -> Part
    requires at_in_bounds { at ≤ length source.now.words.now }
    requires next_in_bounds { next ≤ length source.now.words.now }
    ensures { PartPut source.now.words.now source.now.text.now out.old place at items m i left next out.new result }
{
    match node_at(source.words, at, items) {
        Some(o) => {
            let node = Node {
                words: source.words,
                text: source.text,
                kind: o.kind,
                head: o.head,
            };
            let begun = put_begun(&node, out, place, m, i);
            let child = child_place(&node, o.from, i, next);
            if node.kind < NODE_SIGNED {
                return no_more(child, begun, m);
            }
            if i < o.count {
                let row = row_left(&node, i, left);
                return put_child(&node, out, begun, m, i, row, child, o.items);
            }
            put_last(&node, out, begun, m, child, o.tail)
        }
        None => no_more(at, place, m),
    }
}
