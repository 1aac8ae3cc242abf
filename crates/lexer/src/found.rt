// What is found at a place, as one word, so that a read passes its row on without a second lookup: 64 times the row and 63 if the
// longest spelling has two bytes or more, else the word of the byte (crate::spellings).
ghost use Rattle.std.specs.Prelude.{◌≡◌, ◌%◌};
ghost use Rattle.std.proofs.Math.Option.{some};
ghost use Rattle.lexer.specs.Lookup.{token_row};
ghost use Rattle.lexer.specs.Coded.{row_in};

use crate::row::Row;
use crate::spellings::{KINDS, ROW};

// The kind of the byte.
pub(crate) fn kind_in(found: usize) -> usize
    ensures { result ≡ found % 32 }
{
    found % KINDS
}

// The word of a row.
pub(crate) fn word_of(row: Row) -> usize
    ensures { row_in result ≡ some row }
{
    ROW * row.number() + ROW - 1
}

// The row of the spelling table in the word, by which a token was read; only a token of rule 2 has one.
pub(crate) fn row_in(found: usize) -> Option<usize>
    ensures { result ≡ token_row (row_in found) }
{
    if found / KINDS % 2 == 1 {
        Some(found / ROW)
    } else {
        None
    }
}
