// The printed tree, row by row: the nodes of a row and all below them.
ghost use Rattle.std.specs.Prelude.{◌≤◌, length, ◌≡◌};
ghost use Rattle.printer.specs.Rows.{last_of, row_of, RowPut};

use line::put_line;
use tree::walk::{node_at, past};

// Where the words read and the bytes put end.
#[derive(Clone, Copy)]
pub(crate) struct Reached {
    pub at: usize,
    pub end: usize,
}

// Whether a node is the last of its row, with no words behind the nodes below it.
fn is_last(left: usize, tail: usize) -> bool
    ensures { result ≡ last_of left tail }
{
    left == 1 && tail == 0
}

// The lines of `count` nodes and of all below them. The nodes below the last one take the place of its row, so that no call waits for
// them. Each row begins at least one word behind the node it stands below, so its depth is no more than its place. put_line is called
// twice so that the compiler leaves it a function of its own, and a call of this one small.
pub(crate) fn put_row(
    words: &[u32],
    out: &mut [u8],
    from: usize,
    place: usize,
    count: usize,
    items: bool,
    depth: usize,
) -> Reached
    requires from_in_bounds { from ≤ length words.now }
    requires depth_le_from { depth ≤ from }
    ensures { RowPut out.old place (row_of words.now from count items depth) out.new result }
{
    let mut at = from;
    let mut end = place;
    let mut left = count;
    let mut sort = items;
    let mut level = depth;
    // kept: no `for`, since the nodes below a last one take its row's place, and with it what is left
    'all: while left > 0 {
        let Some(o) = node_at(words, at, sort) else {
            break;
        };
        if is_last(left, o.tail) {
            end = put_line(words, out, end, o, level);
            at = o.from;
            left = o.count;
            sort = o.items;
            level += 1;
        } else {
            let behind = put_line(words, out, end, o, level);
            let r = put_row(words, out, o.from, behind, o.count, o.items, level + 1);
            at = past(words, r.at, o.tail);
            end = r.end;
            left -= 1;
        }
    }
    Reached { at, end }
}
