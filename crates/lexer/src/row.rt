// A row of the spelling table.
ghost use Rattle.std.specs.Prelude.{◌≡◌, ℕ, ◌+◌, ◌≤◌, ◌<◌, length, get_or, drop};
ghost use Rattle.lexing.specs.Longest.{begins};
ghost use Rattle.lexer.specs.Constants.{start_of, kind_of, spelling_of};

use crate::spellings::{KINDS, byte_at, row_word, second_byte};
use std::marker::Model;

// The row's number, counted from 0.
#[derive(Clone, Copy)]
pub(crate) struct Row {
    number: usize,
}

impl Model for Row {
    ghost Value = { ℕ };

    ghost view = { λ r. r.number };

    ghost invariant = { λ r. r.number < 429 };

    ghost inverse = { λ n. record { number = n } };
}

// Where the bytes of a row start, or end those of the row before.
fn start_of(number: usize) -> usize
    requires { number < 430 }
    ensures { result ≡ start_of number }
{
    row_word(number) / KINDS
}

impl Row {
    pub(crate) fn new(number: usize) -> Row
        requires { number < 429 }
        ensures { result ≡ number }
    {
        Row { number }
    }

    pub(crate) fn number(self) -> usize
        ensures { (result ≡ self) × (self < 429) }
    {
        self.number
    }

    // How many bytes the spelling has.
    pub(crate) fn len(self) -> usize
        ensures { result ≡ length (spelling_of self) }
    {
        start_of(self.number + 1) - start_of(self.number)
    }

    // The number of the token.
    pub(crate) fn kind(self) -> u32
        ensures { (result ≡ kind_of self) × (self < 429) }
    {
        (row_word(self.number) % KINDS) as u32
    }

    // Byte j of the spelling.
    pub(crate) fn byte(self, j: usize) -> u8
        requires { j < length (spelling_of self) }
        ensures { result ≡ get_or (spelling_of self) j 0 }
    {
        byte_at(start_of(self.number) + j)
    }

    // The second byte of the spelling, or 0 if it has none.
    pub(crate) fn second(self) -> u8
        ensures { result ≡ get_or (spelling_of self) 1 0 }
    {
        second_byte(self.number)
    }

    // Whether the row, whose first two bytes stand at the place, begins the text there.
    pub(crate) fn begins_at(self, text: &[u8], at: usize) -> bool
        requires { (2 ≤ length (spelling_of self)) × (at + 1 < length text.now)
            × (get_or (spelling_of self) 0 0 ≡ get_or text.now at 0)
            × (get_or (spelling_of self) 1 0 ≡ get_or text.now (at + 1) 0) }
        ensures { result ≡ begins (spelling_of self) (drop at text.now) }
    {
        let n = self.len();
        if text.len() - at < n {
            return false;
        }
        for j in 2..n {
            if self.byte(j) != text[at + j] {
                return false;
            }
        }
        true
    }
}
