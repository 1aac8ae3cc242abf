// A flag for each column, past the cells: 1 for a column whose every cell is a column line, else 0.
// kept: numbers, since the words of the tree that are still free hold them
ghost use Rattle.std.specs.Prelude.{◌≡◌, ◌==◌, true, ◌+◌, ◌≤◌, ◌<◌, length, count_by};
ghost use Rattle.columns.specs.Columns.{next, has_room};
ghost use Rattle.columns.specs.Steps.{flags, Marked, KeptCount, Lines};

use crate::line::{cell_at, is_column_line};
use buffer::fits;

pub(crate) fn next_col(j: usize, cols: usize) -> usize
    requires { j < cols }
    ensures { result ≡ next cols j }
{
    let k = j + 1;
    if k == cols { 0 } else { k }
}

// The flags, and whether `cells` cells stand from `from` up to `end`.
fn mark_columns(
    text: &[u8],
    tree: &mut [u32],
    from: usize,
    end: usize,
    cells: usize,
    cols: usize,
) -> bool
    requires cols_nonzero { 0 < cols }
    requires cols_in_bounds { end + cols ≤ length tree.old }
    ensures { Marked text.now tree.old from end cells cols tree.new result }
{
    tree[end..end + cols].fill(1);
    let mut at = from;
    let mut j = 0;
    for _ in 0..cells {
        let Some(cell) = cell_at(tree, at, end) else {
            return false;
        };
        let n = cell.len();
        if !is_column_line(text, cell) {
            tree[end + j] = 0;
        }
        at += n;
        j = next_col(j, cols);
    }
    at == end
}

fn kept_columns(tree: &[u32], end: usize, cols: usize) -> usize
    requires { end + cols ≤ length tree.now }
    ensures { result ≡ count_by (λ flag. flag == 0) (flags end cols tree.now) }
{
    tree[end..end + cols]
        .iter()
        .filter(|flag| **flag == 0)
        .count()
}

// Whether there are columns, at most 4,096, and past `end` a word for each.
#[tactic(auto, unfolding(crate::specs::Columns::has_room))]
pub(crate) fn has_room(len: usize, end: usize, cols: usize) -> bool
    ensures { result ≡ has_room len end cols }
{
    cols != 0 && cols <= 4096 && fits(len, end, cols)
}

// The flags, and how many columns are kept; none, if no such cells stand there.
pub(crate) fn count_kept(
    text: &[u8],
    tree: &mut [u32],
    from: usize,
    end: usize,
    cells: usize,
    cols: usize,
) -> usize
    requires { has_room (length tree.old) end cols ≡ true }
    ensures { KeptCount text.now tree.old from end cells cols tree.new result }
{
    if mark_columns(text, tree, from, end, cells, cols) {
        kept_columns(tree, end, cols)
    } else {
        0
    }
}

// The boundaries where the columns stood whose flag is 1, from `to` on. They never pass the flag that is read.
pub(crate) fn put_lines(tree: &mut [u32], to: usize, end: usize, cols: usize) -> usize
    requires to_le_end { to ≤ end }
    requires cols_in_bounds { end + cols ≤ length tree.old }
    requires cols_bound { cols ≤ 4096 }
    ensures { Lines tree.old to end cols tree.new result }
{
    let mut out = to;
    let mut boundary = 0;
    for k in 0..cols {
        if tree[end + k] == 0 {
            boundary += 1;
        } else {
            tree[out] = boundary;
            out += 1;
        }
    }
    out
}
