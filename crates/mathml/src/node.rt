// A node and all below it, written front to back. A call that waits for a node below it keeps as little as it can, so that a deep tree
// needs little stack: all else is done in put_part. A child that has no children is one part.
ghost use Rattle.std.specs.Prelude.{◌≤◌, length};
ghost use Rattle.mathml.specs.Walks.{NodePut};

use crate::part::put_part;
use crate::place::is_leaf;
use crate::source::Source;
use mathml_rules::Mode;

// Where the words read and the bytes put end.
#[derive(Clone, Copy)]
pub(crate) struct Reached {
    pub at: usize,
    pub end: usize,
}

// The node at a place of a row of items, or of nodes that are none.
pub(crate) fn put_node(
    source: &Source<'_>,
    out: &mut [u8],
    at: usize,
    items: bool,
    place: usize,
    m: Mode,
) -> Reached
    requires { at ≤ length source.now.words.now }
    ensures { NodePut source.now.words.now source.now.text.now out.old at items place m out.new result }
{
    let mut next = at;
    let mut end = place;
    let mut left = 0;
    let mut i = 0;
    'all: loop {
        let p = put_part(source, out, end, at, items, m, i, left, next);
        if p.more {
            let mode = p.mode;
            if is_leaf(source.words, p.at, p.items) {
                let c = put_part(source, out, p.end, p.at, p.items, mode, 0, 0, p.at);
                next = c.at;
                end = c.end;
            } else {
                let r = put_node(source, out, p.at, p.items, p.end, mode);
                next = r.at;
                end = r.end;
            }
            left = p.left;
            i += 1;
        } else {
            return Reached {
                at: p.at,
                end: p.end,
            };
        }
    }
}
