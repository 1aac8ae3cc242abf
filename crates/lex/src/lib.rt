// One read at a place of a text, for a caller that steps over the text and keeps the place itself.
#![tactic(auto)]

ghost use Rattle.std.specs.Prelude.{◌≡◌, ◌≤◌};
ghost use Rattle.refusals.specs.Refusal.{numbered};
ghost use Rattle.lex.specs.Lex.{spanned_at, queue_at, lexed_at};

use lexer::{Listing, list_reads};
use refusals::refusal::Refusal;
use tokens::token::Token;

// A token with its span.
#[derive(Clone, Copy, PartialEq, Eq)]
pub struct Spanned {
    pub token: Token,
    pub start: usize,
    pub len: usize,
}

// The tokens that wait: how many, and those.
#[derive(Clone, Copy, PartialEq, Eq)]
pub struct Queue {
    pub count: usize,
    pub first: Spanned,
    pub second: Spanned,
    pub third: Spanned,
}

// The first token, those that wait, the next place, and the row of the first: those that wait are not looked up.
#[derive(Clone, Copy, PartialEq, Eq)]
pub struct Lexing {
    pub first: Spanned,
    pub queued: Queue,
    pub next: usize,
    pub row: Option<usize>,
}

// The token whose three words stand at i.
fn spanned_at(words: &[u32; 12], i: usize) -> Spanned
    requires { i ≤ 9 }
    ensures { result ≡ spanned_at words.now i }
{
    Spanned {
        token: Token::from(words[i + 2]),
        start: words[i] as usize,
        len: words[i + 1] as usize,
    }
}

// The tokens behind the first, of which `count` wait.
fn queue_at(words: &[u32; 12], count: usize) -> Queue
    ensures { result ≡ queue_at words.now count }
{
    Queue {
        count,
        first: spanned_at(words, 3),
        second: spanned_at(words, 6),
        third: spanned_at(words, 9),
    }
}

// The token at the place with its row, those that wait behind it, and the next place; none at the text's end; or the text is refused
// by 1 or 2, or a place past it by 5.
pub fn lex_at(text: &[u8], at: usize) -> Result<Option<Lexing>, Refusal>
    ensures { numbered result ≡ lexed_at text.now at }
{
    let mut words = [0u32; 12];
    let Listing { all, next, row, .. } = list_reads(text, at, at.saturating_add(1), &mut words)?;
    if text.len() <= at {
        return Ok(None);
    }
    Ok(Some(Lexing {
        first: spanned_at(&words, 0),
        queued: queue_at(&words, all - 1),
        next,
        row,
    }))
}
