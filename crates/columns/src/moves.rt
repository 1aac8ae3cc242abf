// The cells of the columns that are kept, moved together.
ghost use Rattle.columns.specs.Steps.{CellsStand, KeptCells};

use crate::flags::next_col;
use crate::line::cell_len;

// Where the cells that are kept end, and how many they are.
#[derive(Clone, Copy)]
pub(crate) struct Kept {
    pub end: usize,
    pub cells: usize,
}

// The cells of the columns whose flag is 0, moved together.
pub(crate) fn keep_cells(
    tree: &mut [u32],
    from: usize,
    end: usize,
    cells: usize,
    cols: usize,
) -> Kept
    requires { CellsStand tree.old from end cells cols }
    ensures { KeptCells tree.old from end cells cols tree.new result }
{
    let mut at = from;
    let mut to = from;
    let mut count = 0;
    let mut j = 0;
    for _ in 0..cells {
        let n = cell_len(tree, at);
        if tree[end + j] == 0 {
            tree.copy_within(at..at + n, to);
            to += n;
            count += 1;
        }
        at += n;
        j = next_col(j, cols);
    }
    Kept {
        end: to,
        cells: count,
    }
}
