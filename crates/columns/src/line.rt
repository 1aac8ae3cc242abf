// Cells by their words: where they end, and which are column lines.
ghost use Rattle.std.specs.Prelude.{◌≡◌, ◌+◌, ◌≤◌, ◌<◌, length, take, drop, IfSome, IfNone};
ghost use Rattle.columns.specs.Columns.{cell_len, lone_symbol, is_line};

use buffer::fits;
use spans::is_span_byte;
use tree::kinds::{NODE_SIMPLE, NODE_SYMBOL};

pub(crate) fn cell_len(tree: &[u32], at: usize) -> usize
    requires { at + 4 < length tree.now }
    ensures { result ≡ cell_len tree.now at }
{
    6 + tree[at + 4] as usize
}

// The words of the cell at `at`, if it ends by `end`.
pub(crate) fn cell_at(tree: &[u32], at: usize, end: usize) -> Option<&[u32]>
    requires { end ≤ length tree.now }
    ensures within { IfSome result (λ cell. at + cell_len tree.now at ≤ end) }
    ensures words { IfSome result (λ cell. cell.now ≡ take (cell_len tree.now at) (drop at tree.now)) }
    ensures past { IfNone result (end < at + cell_len tree.now at) }
{
    if fits(end, at, 6) {
        let n = cell_len(tree, at);
        if fits(end, at, n) {
            return Some(&tree[at..at + n]);
        }
    }
    None
}

// One item, no fraction; a simple without script; in it a symbol.
fn is_lone_symbol(items: u32, frac: u32, kind: u32, script: u32, below: u32) -> bool
    ensures { result ≡ lone_symbol items frac kind script below }
{
    items == 1 && frac == 0 && kind == NODE_SIMPLE && script == 0 && below == NODE_SYMBOL
}

// is_column_line, of a cell by its words. With fewer than 16 it has no text.
#[tactic(auto, using(crate::proofs::Bars::line_short), unfolding(crate::specs::Columns::is_line))]
pub(crate) fn is_column_line(text: &[u8], cell: &[u32]) -> bool
    ensures { result ≡ is_line text.now cell.now }
{
    16 <= cell.len()
        && is_lone_symbol(cell[3], cell[6], cell[7], cell[10], cell[13])
        && is_span_byte(text, cell[14] as usize, cell[15] as usize, b'|')
}
