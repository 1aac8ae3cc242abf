// An item that is one leaf, the most common one: read at once, without the readers above a leaf.
ghost use Rattle.std.specs.Prelude.{◌≡◌, [], ◌∷◌, ◌+◌, ◌≤◌, ◌<◌, length};
ghost use Rattle.std.proofs.lemmas.List.Edits.{sets};
ghost use Rattle.records.specs.Record.{kind_of};
ghost use Rattle.leaves.specs.Leaves.{leaf_words, leaf_ends};
ghost use Rattle.reading_cursor.specs.Moves.{onward, seen};

use crate::cursor::{Part, next};
use leaves::{leaf_ends, put_plain};
use lookahead::list::List;
use reading_cursor::Cursor;
use records::record::kind_at;

// Its readers look for a head, take the leaf, and look for a script and for a fraction.
pub(crate) fn plain_item(
    list: &List<'_>,
    work: &[u32],
    tree: &mut [u32],
    c: Cursor,
    e: usize,
) -> Part
    requires pos_bound { c.pos < 4096 }
    requires e_in_bounds { e + 13 ≤ length tree.old }
    ensures value { result ≡ record { cur = seen list.now.n (seen list.now.n (onward (seen list.now.n c))); end = e + 13; ends = leaf_ends (kind_of list.now.tok.now work.now c.pos) } }
    ensures tree_after { tree.new ≡ sets (sets (sets tree.old (e + 7) (leaf_words list.now.tok.now work.now c.pos (kind_of list.now.tok.now work.now c.pos))) (e + 1) (13 ∷ 0 ∷ 0 ∷ 0 ∷ 0 ∷ 0 ∷ [])) e (0 ∷ []) }
{
    let n = list.n;
    let i = c.pos as usize;
    let k = kind_at(list.tok, work, i);
    put_plain(list, work, tree, e, i, k);
    Part {
        cur: next(c.look(n)).look(n).look(n),
        end: e + 13,
        ends: leaf_ends(k),
    }
}
