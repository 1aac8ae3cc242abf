// The rows of a matrix: their brackets, by their texts, and the cells that are left of them.
#![tactic(auto)]

ghost use Rattle.std.specs.Prelude.{◌≡◌};
ghost use Rattle.rows.specs.Rows.{round_at, pair_at, cells_left};

use lookahead::list::List;
use spans::is_byte;

// The bracket at i is `(`.
pub fn is_round(list: &List<'_>, work: &[u32], i: usize) -> bool
    ensures { result ≡ round_at list.now.text.now list.now.tok.now work.now i }
{
    is_byte(list, work, i, b'(')
}

// The brackets at left and right are `(` and `)`, or, if not round, `[` and `]`.
#[tactic(auto, unfolding(crate::specs::Rows::pair_at))]
pub fn is_pair(list: &List<'_>, work: &[u32], round: bool, left: usize, right: usize) -> bool
    ensures { result ≡ pair_at list.now.text.now list.now.tok.now work.now round left right }
{
    if round {
        is_byte(list, work, left, b'(') && is_byte(list, work, right, b')')
    } else {
        is_byte(list, work, left, b'[') && is_byte(list, work, right, b']')
    }
}

// Above 1 exactly if all rows are read and the matrix has more than one cell: two rows have always; one row has the cells that are no
// lines, or all its cells if all are lines.
pub fn cells_left(done: bool, more: bool, cols: usize, kept: usize) -> usize
    ensures { result ≡ cells_left done more cols kept }
{
    if !done {
        0
    } else if more {
        2
    } else if kept == 0 {
        cols
    } else {
        kept
    }
}
