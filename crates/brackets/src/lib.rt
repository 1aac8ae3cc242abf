// Tests of brackets and bars, by their words and their texts.
#![tactic(auto)]

ghost use Rattle.std.specs.Prelude.{◌≡◌, ◌<◌};
ghost use Rattle.brackets.specs.Brackets.{bar_at, closes_at, row_fits_at, could_be_matrix_at, set_at, makes_at, tries_at, has_attempts};

use fields::{after_close, sep_of};
use lookahead::list::List;
use records::record::kind_at;
use spans::{is_byte, same_text};
use tokens::kinds::{OPEN_BRACKET, OPEN_CLOSE_BRACKET, SEP};

// The entry at j is a bar with the text of the entry i, if both are there. Asked before each item, and nearly always the first test says
// no: inline, a plain text takes a sixth less in the bracket pass.
#[inline(always)]
#[tactic(auto, unfolding(crate::specs::Brackets::bar_at))]
pub fn bar_at(list: &List<'_>, work: &[u32], i: usize, j: usize) -> bool
    ensures { result ≡ bar_at list.now.text.now list.now.tok.now work.now list.now.n i j }
{
    i < list.n && list.is_at(work, j, OPEN_CLOSE_BRACKET) && same_text(list, work, i, j)
}

// The entry at j closes the bracket at i.
#[tactic(auto, unfolding(crate::specs::Brackets::closes_at))]
fn closes(list: &List<'_>, work: &[u32], i: usize, j: usize) -> bool
    ensures { result ≡ closes_at list.now.text.now list.now.tok.now work.now list.now.n i j }
{
    if kind_at(list.tok, work, i) == OPEN_BRACKET {
        let after = after_close(work, i);
        after != 0 && after - 1 == j
    } else {
        bar_at(list, work, i, j)
    }
}

// The bracket at `row` may be that of a first row in the bracket at i. Inline, like the test below it: a text of brackets reads quicker.
#[inline(always)]
fn row_fits(list: &List<'_>, work: &[u32], i: usize, row: usize) -> bool
    ensures { result ≡ row_fits_at list.now.text.now list.now.tok.now work.now list.now.n i row }
{
    let after = after_close(work, row);
    after != 0
        && (list.is_at(work, after, SEP) || closes(list, work, i, after) && sep_of(work, row) == 1)
}

// The bracket at i may begin a matrix. Most have no bracket behind them.
#[tactic(auto, unfolding(crate::specs::Brackets::could_be_matrix_at, lookahead::specs::Tests::test_at))]
#[inline(always)]
pub fn could_be_matrix(list: &List<'_>, work: &[u32], i: usize) -> bool
    ensures { result ≡ could_be_matrix_at list.now.text.now list.now.tok.now work.now list.now.n i }
{
    i < list.n && list.is_at(work, i + 1, OPEN_BRACKET) && row_fits(list, work, i, i + 1)
}

// Rows of `(` before `}`.
#[tactic(auto, unfolding(crate::specs::Brackets::set_at))]
fn is_set(list: &List<'_>, work: &[u32], left: usize, p: usize) -> bool
    ensures { result ≡ set_at list.now.text.now list.now.tok.now work.now left p }
{
    is_byte(list, work, left, b'(') && is_byte(list, work, p, b'}')
}

// Rows that open at `left`, of so many cells, make a matrix of the bracket at i with the entry p behind them.
#[tactic(auto, unfolding(crate::specs::Brackets::makes_at))]
pub fn makes_matrix(
    list: &List<'_>,
    work: &[u32],
    i: usize,
    left: usize,
    cells: usize,
    p: usize,
) -> bool
    ensures { result ≡ makes_at list.now.text.now list.now.tok.now work.now list.now.n i left cells p }
{
    p < list.n && !is_set(list, work, left, p) && 1 < cells && closes(list, work, i, p)
}

// An attempt may be made at the entry i: it is a bar, or a bracket that may begin a matrix.
#[tactic(auto, unfolding(crate::specs::Brackets::tries_at, crate::specs::Brackets::could_be_matrix_at, lookahead::specs::Tests::test_at))]
fn tries_at(list: &List<'_>, work: &[u32], i: usize) -> bool
    ensures { result ≡ tries_at list.now.text.now list.now.tok.now work.now list.now.n i }
{
    let k = kind_at(list.tok, work, i);
    // could_be_matrix, written out: every entry is asked, and the call would take longer than the answer
    k == OPEN_CLOSE_BRACKET
        || k == OPEN_BRACKET
            && i < list.n
            && list.is_at(work, i + 1, OPEN_BRACKET)
            && row_fits(list, work, i, i + 1)
}

// An attempt may be made at one of the n entries.
#[tactic(auto, using(crate::proofs::Attempts::found_here, crate::proofs::Attempts::found_later, crate::proofs::Attempts::found_nowhere, crate::proofs::Attempts::found_all))]
pub fn has_attempts(list: &List<'_>, work: &[u32]) -> bool
    ensures { result ≡ has_attempts list.now.text.now list.now.tok.now work.now list.now.n }
{
    for i in 0..list.n {
        if tries_at(list, work, i) {
            return true;
        }
    }
    false
}
