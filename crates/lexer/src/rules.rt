// What is read at a place of a text: rules 1 to 5, each falling through to the next. Names as in the Rust's tokenizer.rs.
ghost use Rattle.std.specs.Prelude.{◌≡◌, true, false, ◌+◌, ◌≤◌, ◌<◌, length, get_or};
ghost use Rattle.tokens.specs.declared.token.Token.TheVariants.{Unary};
ghost use Rattle.tokens.specs.Refusals.{ascii};
ghost use Rattle.lexer.specs.Constants.{spelling_of};
ghost use Rattle.lexing.specs.Rules.{blank, digit, letter, other, run_end, command_at, is_text_command, number_end, past_point, byte_at, read_at, token_row_at};
ghost use Rattle.lexer.specs.Coded.{Placed, AddedRead, from_quotation, from_number, from_row, with_found, row_in, closing};

use crate::found::{kind_in, word_of};
use crate::prefix_map::longer_row;
use crate::row::Row;
use crate::spellings::byte_word;
use crate::table::{Listed, put, put_other};
use blanks::{ByteTest, blanks_end, run_end};
use tokens::kinds::{CLOSE_BRACKET, NUMBER, OPEN_BRACKET, OPERATOR, SPACE, TEXT, UNARY};

// The rows of `text` and `mbox`, which `is_text_command` is proved with, and the bytes of each.
const TEXT_ROW: usize = 373;

const MBOX_ROW: usize = 272;

const COMMAND_LEN: usize = 4;

#[tactic(auto, using(std::proofs::lemmas::Bool::Decides::nat_tests), unfolding(lexing::specs::Rules::digit))]
fn is_digit(c: u8) -> bool
    ensures { result ≡ digit c }
{
    matches!(c, b'0'..=b'9')
}

struct Digit;

impl ByteTest for Digit {
    ghost passed = { λ t. digit };

    fn passes(&self, c: u8) -> bool {
        is_digit(c)
    }
}

// Where the digits from the place on end; past the text's end there are none.
fn digits_end(text: &[u8], at: usize) -> usize
    ensures { result ≡ run_end digit text.now at }
{
    run_end(text, at, &Digit)
}

// Every byte but one.
#[derive(Clone, Copy)]
struct Other {
    than: u8,
}

impl ByteTest for Other {
    ghost passed = { λ t. other t.than };

    #[tactic(auto, using(std::proofs::lemmas::Bool::Decides::nat_tests), unfolding(lexing::specs::Rules::other))]
    fn passes(&self, c: u8) -> bool {
        c != self.than
    }
}

// Where the byte b first stands from the place on, or the text's end.
fn find_end(text: &[u8], at: usize, b: u8) -> usize
    ensures { result ≡ run_end (other b) text.now at }
{
    run_end(text, at, &Other { than: b })
}

// Rules 4 and 5 for a byte that is no letter: a quotation, or an Operator.
fn strip_text(text: &[u8], table: &mut [u32], p: Listed) -> Listed
    requires { Placed text.now p × (letter (get_or text.now p.next 0) ≡ false) }
    ensures { AddedRead (from_quotation text.now p.next) p table.old result table.new }
{
    let at = p.next;
    let from = at + 1;
    if text[at] == b'"' {
        let e = find_end(text, from, b'"');
        if e < text.len() {
            return put_other(table, p, from, e - from, TEXT, e + 1);
        }
    }
    put_other(table, p, at, 1, OPERATOR, from)
}

// Where digits with at most one point end.
fn number_end(text: &[u8], at: usize) -> usize
    ensures { result ≡ number_end text.now at }
{
    let p = digits_end(text, at);
    if p < text.len() && text[p] == b'.' {
        return digits_end(text, p + 1);
    }
    p
}

// Past a point at the place.
fn past_point(text: &[u8], at: usize) -> usize
    requires { at < length text.now }
    ensures { result ≡ past_point text.now at }
{
    if text[at] == b'.' {
        return at + 1;
    }
    at
}

// Rule 3 for a byte that is no letter.
fn strip_number(text: &[u8], table: &mut [u32], p: Listed) -> Listed
    requires { Placed text.now p × (letter (get_or text.now p.next 0) ≡ false) }
    ensures { AddedRead (from_number text.now p.next) p table.old result table.new }
{
    let at = p.next;
    let e = number_end(text, at);
    if past_point(text, at) < e {
        return put_other(table, p, at, e - at, NUMBER, e);
    }
    strip_text(text, table, p)
}

// The closer of a bracket that a text command takes.
#[tactic(auto, using(std::proofs::lemmas::Bool::Decides::nat_tests), unfolding(lexing::specs::Rules::closer, crate::specs::Coded::closing))]
fn closer_of(c: u8) -> Option<u8>
    ensures { result ≡ closing c }
{
    match c {
        b'(' => Some(b')'),
        b'[' => Some(b']'),
        b'{' => Some(b'}'),
        _ => None,
    }
}

// Rule 2: a text command, `text` or `mbox`, at the place.
fn text_command(text: &[u8], table: &mut [u32], p: Listed) -> Listed
    requires { Placed text.now p × (p.next + 4 ≤ length text.now) }
    ensures { AddedRead (command_at text.now p.next 4 Unary) p table.old result table.new }
{
    let at = p.next;
    let command = put_other(table, p, at, COMMAND_LEN, UNARY, at + COMMAND_LEN);
    let b = blanks_end(text, at + COMMAND_LEN);
    if text.len() <= b {
        return command;
    }
    let Some(c) = closer_of(text[b]) else {
        return command;
    };
    let from = b + 1;
    let e = find_end(text, from, c);
    let open = put_other(table, command, b, 1, OPEN_BRACKET, from);
    let literal = put_other(table, open, from, e - from, TEXT, e);
    if e < text.len() {
        return put_other(table, literal, e, 1, CLOSE_BRACKET, e + 1);
    }
    literal
}

// Whether the row is that of `text` or `mbox`.
fn is_text_command(row: Row) -> bool
    ensures { result ≡ is_text_command (spelling_of row) }
{
    let k = row.number();
    k == TEXT_ROW || k == MBOX_ROW
}

// Rule 2 for the row that is found.
fn strip_spelling(row: Row, text: &[u8], table: &mut [u32], p: Listed) -> Listed
    requires { Placed text.now p × (p.next + length (spelling_of row) ≤ length text.now) }
    ensures { AddedRead (from_row row text.now p.next) p table.old result table.new }
{
    if is_text_command(row) {
        return text_command(text, table, p);
    }
    let at = p.next;
    let len = row.len();
    put_other(table, p, at, len, row.kind(), at + len)
}

// Rule 1.
fn strip_blanks(text: &[u8], table: &mut [u32], p: Listed) -> Listed
    requires { Placed text.now p × (blank (get_or text.now p.next 0) ≡ true) }
    ensures { AddedRead (read_at byte_at text.now p.next) p table.old result table.new }
{
    let at = p.next;
    let e = blanks_end(text, at + 1);
    put(table, p.all, at, e - at, SPACE);
    Listed {
        all: p.all + 1,
        spaces: p.spaces + 1,
        next: e,
        ..p
    }
}

// Rule 3 for a digit.
fn strip_digits(text: &[u8], table: &mut [u32], p: Listed) -> Listed
    requires { Placed text.now p × (digit (get_or text.now p.next 0) ≡ true) }
    ensures { AddedRead (from_number text.now p.next) p table.old result table.new }
{
    let at = p.next;
    let e = number_end(text, at + 1);
    put_other(table, p, at, e - at, NUMBER, e)
}

// Lists what is read at the place, and the word of what is found there. The kind of the byte by itself says which rules can apply but
// for a longer spelling: Space the first, Number the third, Operator the last three; any other kind is the token's.
pub(crate) fn read_token(text: &[u8], table: &mut [u32], p: Listed) -> Listed
    requires { Placed text.now p × (ascii text.now ≡ true) }
    ensures { AddedRead (read_at byte_at text.now p.next) (with_found p result.found) table.old result table.new
        × (row_in result.found ≡ token_row_at text.now p.next) }
{
    let at = p.next;
    let found = byte_word(text[at] as usize);
    let kind = kind_in(found);
    if kind == SPACE as usize {
        return strip_blanks(text, table, Listed { found, ..p });
    }
    if let Some(row) = longer_row(text, at) {
        let found = word_of(row);
        return strip_spelling(row, text, table, Listed { found, ..p });
    }
    if kind == OPERATOR as usize {
        return strip_number(text, table, Listed { found, ..p });
    }
    if kind == NUMBER as usize {
        return strip_digits(text, table, Listed { found, ..p });
    }
    put_other(table, Listed { found, ..p }, at, 1, kind as u32, at + 1)
}
