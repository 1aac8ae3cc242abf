// The longest spelling that begins a text at a place: get_longest_prefix of the Rust's prefix_map, over the constant table.
ghost use Rattle.std.specs.Prelude.{◌≡◌, ◌<◌, length, get_or};
ghost use Rattle.lexing.specs.Longest.{longest_at};
ghost use Rattle.lexer.specs.Lookup.{longest_answer, longer_row};

use crate::found::{kind_in, row_in};
use crate::row::Row;
use crate::spellings::{byte_word, longer_rows};
use tokens::token::Token;

// The length of the spelling, its token, and its row, counted from 0 in the table sorted by bytes.
#[derive(Clone, Copy, PartialEq, Eq)]
pub struct Longest {
    pub len: usize,
    pub token: Token,
    pub row: usize,
}

// The row of the longest spelling if it has two bytes or more. The rows are sorted: of those that begin the text the last is the
// longest, and of those with one first byte the second bytes never fall.
pub(crate) fn longer_row(text: &[u8], at: usize) -> Option<Row>
    requires { (at < length text.now) × (get_or text.now at 0 < 128) }
    ensures { result ≡ longer_row (longest_at text.now at) }
{
    let c = text[at] as usize;
    let (low, past) = longer_rows(c);
    if past <= low || text.len() - at < 2 {
        return None;
    }
    let x = text[at + 1];
    if x < Row::new(low).second() {
        return None;
    }
    for number in (low..past).rev() {
        let row = Row::new(number);
        let b = row.second();
        // one test for the many rows that are passed over
        if b <= x {
            if b < x {
                return None;
            }
            if row.begins_at(text, at) {
                return Some(row);
            }
        }
    }
    None
}

// The longest spelling that begins the text at the place; past the text's end there is none.
pub fn get_longest_prefix(text: &[u8], at: usize) -> Option<Longest>
    ensures { result ≡ longest_answer (longest_at text.now at) }
{
    if text.len() <= at {
        return None;
    }
    let c = text[at] as usize;
    if 127 < c {
        return None;
    }
    if let Some(longest) = longer_row(text, at) {
        return Some(Longest {
            len: longest.len(),
            token: Token::from(longest.kind()),
            row: longest.number(),
        });
    }
    let found = byte_word(c);
    let row = row_in(found)?;
    Some(Longest {
        len: 1,
        token: Token::from(kind_in(found) as u32),
        row,
    })
}
