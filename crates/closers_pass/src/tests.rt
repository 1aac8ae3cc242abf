// Small choices of the readers.
ghost use Rattle.std.specs.Prelude.{◌≡◌, true, false, cond, ◌≤◌, ◌<◌, ◌+◌};
ghost use Rattle.closers_pass.specs.Meet.{leaf_at, nothing_at, plain_part};
ghost use Rattle.reading_cursor.specs.Moves.{seen};

use crate::cursor::{Node, Part, next, nothing};
use leaves::{leaf_bar, leaf_ends};
use lookahead::list::List;
use reading_cursor::Cursor;
use records::record::kind_at;

// The leaf of the entry i, of kind k.
pub(crate) fn leaf(list: &List<'_>, work: &[u32], c: Cursor, i: usize, k: u32) -> Part
    ensures { result ≡ leaf_at list.now.text.now list.now.tok.now work.now i k c }
{
    Part {
        cur: c,
        node: Some(Node {
            ends: leaf_ends(k),
            bar: leaf_bar(list, work, i, k),
        }),
    }
}

// The item that is the leaf at the cursor alone, the most common one, read without the readers above a leaf: they look for a head, take
// the leaf, and look for a script and for a fraction.
pub(crate) fn plain_item(list: &List<'_>, work: &[u32], c: Cursor) -> Part
    requires { c.pos < 4096 }
    ensures { result ≡ plain_part list.now.text.now list.now.tok.now work.now list.now.n c }
{
    let i = c.pos as usize;
    let n = list.n;
    leaf(
        list,
        work,
        next(c.look(n)).look(n).look(n),
        i,
        kind_at(list.tok, work, i),
    )
}

// No item, after the two looks of the readers above a leaf.
pub(crate) fn no_item(n: usize, c: Cursor) -> Part
    ensures { result ≡ nothing_at (seen n (seen n c)) }
{
    nothing(c.look(n).look(n))
}
