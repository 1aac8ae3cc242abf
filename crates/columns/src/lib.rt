// split_column_lines: the columns of lone bars are taken out of the cells of a matrix, which stand in the tree's words row after row.
#![tactic(auto)]

mod flags;
mod line;
mod moves;

ghost use Rattle.std.specs.Prelude.{◌≡◌, true, ◌||◌, ◌+◌, ◌≤◌, length, take, drop, eqb};
ghost use Rattle.columns.specs.Columns.{has_room, split_of, split_words, split_tree};

use crate::flags::{count_kept, has_room, put_lines};
use crate::moves::keep_cells;

// Where the words end, and how many columns, cells and column lines there are.
#[derive(Clone, Copy)]
pub struct Split {
    pub end: usize,
    pub cols: usize,
    pub cells: usize,
    pub lines: usize,
}

// Whether no column is kept, or each.
fn is_whole(kept: usize, cols: usize) -> bool
    ensures { result ≡ (eqb kept 0 || eqb kept cols) }
{
    kept == 0 || kept == cols
}

// What stands there if nothing is split.
fn unsplit(end: usize, cols: usize, cells: usize) -> Split
    ensures { result ≡ record { end = end; cols = cols; cells = cells; lines = 0 } }
{
    Split {
        end,
        cols,
        cells,
        lines: 0,
    }
}

// The cells that are kept and the lines behind them. What they leave, and the flags, stand past the new end.
fn split_cells(
    text: &[u8],
    tree: &mut [u32],
    from: usize,
    end: usize,
    cells: usize,
    cols: usize,
) -> Split
    requires { has_room (length tree.old) end cols ≡ true }
    ensures value { result ≡ split_of text.now tree.old from end cells cols }
    ensures tree_after { take result.end tree.new ≡ split_words text.now tree.old from end cells cols }
    ensures end_bound { result.end ≤ end + cols }
    ensures tree_unchanged { drop (end + cols) tree.new ≡ drop (end + cols) tree.old }
{
    let kept = count_kept(text, tree, from, end, cells, cols);
    if is_whole(kept, cols) {
        return unsplit(end, cols, cells);
    }
    let run = keep_cells(tree, from, end, cells, cols);
    let out = put_lines(tree, run.end, end, cols);
    Split {
        end: out,
        cols: kept,
        cells: run.cells,
        lines: out - run.end,
    }
}

// "become column lines, if some but not all columns are such": of `cells` cells from `from` up to `end`, `cols` in a row, with the
// lines behind them. If no such cells stand there, nothing is split. The words from the new end up to end + cols are cleared; if
// there is no room for the flags, nothing changes.
#[tactic(auto, unfolding(crate::specs::Columns::has_room))]
pub fn split_column_lines(
    text: &[u8],
    tree: &mut [u32],
    from: usize,
    end: usize,
    cells: usize,
    cols: usize,
) -> Split
    ensures value { result ≡ split_of text.now tree.old from end cells cols }
    ensures tree_after { tree.new ≡ split_tree text.now tree.old from end cells cols }
{
    if !has_room(tree.len(), end, cols) {
        return unsplit(end, cols, cells);
    }
    let split = split_cells(text, tree, from, end, cells, cols);
    tree[split.end..end + cols].fill(0);
    split
}
