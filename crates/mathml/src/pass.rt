// A walk that only passes over nodes: where they end, and whether one of them is refused.
ghost use Rattle.std.specs.Prelude.{◌≤◌, length};
ghost use Rattle.mathml.specs.Walks.{RowPassed, NodeEnds};

use crate::place::inner_place;
use mathml_heads::node::Node;
use tree::walk::{node_at, past};

#[derive(Clone, Copy)]
pub(crate) struct Passed {
    // where their words end
    pub at: usize,
    pub refused: bool,
}

// `count` nodes from `from` on, each with all below it.
pub(crate) fn pass_row(words: &[u32], text: &[u8], from: usize, count: usize, items: bool) -> Passed
    requires { from ≤ length words.now }
    ensures { RowPassed words.now text.now from count items result }
{
    let mut at = from;
    let mut refused = false;
    'all: for i in 0..count {
        let p = inner_place(words, at, items);
        let Some(o) = node_at(words, p.at, p.items) else {
            break;
        };
        let node = Node {
            words,
            text,
            kind: o.kind,
            head: o.head,
        };
        refused |= node.is_refused();
        at = o.from;
        if o.count > 0 {
            let r = pass_row(words, text, o.from, o.count, o.items);
            refused |= r.refused;
            at = r.at;
        }
        at = past(words, at, o.tail);
    }
    Passed { at, refused }
}

// Where the words of the node at a place end.
pub(crate) fn node_end(words: &[u32], at: usize) -> usize
    requires { at ≤ length words.now }
    ensures { NodeEnds words.now at result }
{
    pass_row(words, b"", at, 1, false).at
}
