// The tokenizer as a state that is lent and stepped, one token a step: the Rust's Tokenizer, with the text as an argument.
#![tactic(auto)]

ghost use Rattle.std.specs.Prelude.{◌≡◌, true, [], ◌+◌, ◌≤◌, ◌<◌, leb, length, drop};
ghost use Rattle.lex.specs.Lex.{spanned_of, no_lexeme, queue_of};
ghost use Rattle.stepper.specs.Step.{waiting, inside, fits, fresh, answer_of, stepped, state};

use lex::{Lexing, Queue, Spanned, lex_at};
use refusals::refusal::Refusal;
use refusals::text::check_text;
use tokens::token::Token;

// The place of the next read, and the tokens that wait before it.
#[derive(Clone, Copy, PartialEq, Eq)]
pub struct Tokenizer {
    pub place: usize,
    pub queued: Queue,
}

// What stands in a place where no token waits.
fn no_token() -> Spanned
    ensures { result ≡ spanned_of no_lexeme }
{
    Spanned {
        token: Token::Frac,
        start: 0,
        len: 0,
    }
}

fn no_tokens() -> Queue
    ensures { result ≡ queue_of [] }
{
    Queue {
        count: 0,
        first: no_token(),
        second: no_token(),
        third: no_token(),
    }
}

// Whether a token lies in a text of `size` bytes. Its end is not computed, since the sum could wrap.
fn is_inside(size: usize, t: Spanned) -> bool
    ensures { result ≡ leb (t.start + t.len) size }
{
    t.start <= size && t.len <= size - t.start
}

// The same of the tokens that wait.
#[tactic(auto, unfolding(crate::specs::Step::inside, crate::specs::Step::waiting))]
fn are_inside(size: usize, q: Queue) -> bool
    requires { q.count ≤ 3 }
    ensures { result ≡ inside size (waiting q) }
{
    match q.count {
        0 => true,
        1 => is_inside(size, q.first),
        2 => is_inside(size, q.first) && is_inside(size, q.second),
        _ => is_inside(size, q.first) && is_inside(size, q.second) && is_inside(size, q.third),
    }
}

// The tokens behind the first one.
fn behind_first(q: Queue) -> Queue
    requires { (0 < q.count) × (q.count ≤ 3) }
    ensures { result ≡ queue_of (drop 1 (waiting q)) }
{
    match q.count {
        1 => no_tokens(),
        2 => Queue {
            count: 1,
            first: q.second,
            ..no_tokens()
        },
        _ => Queue {
            count: 2,
            first: q.second,
            second: q.third,
            ..no_tokens()
        },
    }
}

impl Tokenizer {
    // The state at the start of a text.
    pub fn new() -> Tokenizer
        ensures { result ≡ fresh }
    {
        Tokenizer {
            place: 0,
            queued: no_tokens(),
        }
    }

    // Whether the place and the tokens that are said to wait, at most three, lie in a text of `size` bytes.
    #[tactic(auto, unfolding(crate::specs::Step::fits))]
    fn fits(&self, size: usize) -> bool
        ensures { result ≡ fits size self.now }
    {
        self.place <= size && self.queued.count <= 3 && are_inside(size, self.queued)
    }

    // Takes the first token that waits.
    fn take_first(&mut self) -> Spanned
        requires { (0 < self.old.queued.count) × (self.old.queued.count ≤ 3) }
        ensures taken { result ≡ self.old.queued.first }
        ensures left { self.new ≡ state self.old.place (drop 1 (waiting self.old.queued)) }
    {
        let first = self.queued.first;
        self.queued = behind_first(self.queued);
        first
    }

    // A step of a state that fits, with no token waiting: what is read at its place, or none at the text's end; or the refusal of the
    // text.
    fn read_on(&mut self, text: &[u8]) -> Result<Option<Spanned>, Refusal>
        requires { (fits (length text.now) self.old ≡ true) × (self.old.queued.count ≤ 0) }
        ensures { (answer_of result, self.new) ≡ stepped text.now self.old }
    {
        match lex_at(text, self.place)? {
            Some(
                Lexing {
                    first,
                    queued,
                    next,
                    ..
                },
            ) => {
                *self = Tokenizer {
                    place: next,
                    queued,
                };
                Ok(Some(first))
            }
            None => Ok(None),
        }
    }

    // One step over the text: the next token, or none at the text's end, or a refusal. A refusal and the end leave the state as it is.
    // Each way checks the text once, and a refused text is answered before all else.
    pub fn next(&mut self, text: &[u8]) -> Result<Option<Spanned>, Refusal>
        ensures { (answer_of result, self.new) ≡ stepped text.now self.old }
    {
        let fits = self.fits(text.len());
        if fits && self.queued.count == 0 {
            return self.read_on(text);
        }
        check_text(text)?;
        if !fits {
            return Err(Refusal::SpanPastText);
        }
        Ok(Some(self.take_first()))
    }
}
