// The texts of entries, by their spans. A span that ends past the text ends with it.
#![tactic(auto)]

ghost use Rattle.std.specs.Prelude.{◌≡◌, [], ◌∷◌};
ghost use Rattle.tokens.specs.Bytes.{same};
ghost use Rattle.spans.specs.Spans.{bytes_of, same_span, same_at, byte_at};

use lookahead::list::List;
use records::record::{len_at, start_at};

// The bytes of a span.
fn span(text: &[u8], at: usize, len: usize) -> &[u8]
    ensures { result.now ≡ bytes_of text.now at len }
{
    let rest = &text[at.min(text.len())..];
    &rest[..len.min(rest.len())]
}

#[tactic(auto, using(crate::proofs::Spans::same_as_eq))]
fn same_span(text: &[u8], a: usize, l: usize, b: usize, m: usize) -> bool
    ensures { result ≡ same_span text.now a l b m }
{
    span(text, a, l) == span(text, b, m)
}

// Two entries have the same text.
#[tactic(auto, unfolding(crate::specs::Spans::same_at))]
pub fn same_text(list: &List<'_>, work: &[u32], i: usize, j: usize) -> bool
    ensures { result ≡ same_at list.now.text.now list.now.tok.now work.now i j }
{
    same_span(
        list.text,
        start_at(list.tok, work, i) as usize,
        len_at(list.tok, work, i) as usize,
        start_at(list.tok, work, j) as usize,
        len_at(list.tok, work, j) as usize,
    )
}

// The text of a span is this one byte.
#[tactic(auto, using(crate::proofs::Spans::one_is, crate::proofs::Spans::one_not, crate::proofs::Spans::not_one))]
pub fn is_span_byte(text: &[u8], at: usize, len: usize, byte: u8) -> bool
    ensures { result ≡ same (bytes_of text.now at len) (byte ∷ []) }
{
    matches!(span(text, at, len), [b] if *b == byte)
}

// The text of the entry i is this one byte.
#[tactic(auto, unfolding(crate::specs::Spans::byte_at))]
pub fn is_byte(list: &List<'_>, work: &[u32], i: usize, byte: u8) -> bool
    ensures { result ≡ byte_at list.now.text.now list.now.tok.now work.now i byte }
{
    is_span_byte(
        list.text,
        start_at(list.tok, work, i) as usize,
        len_at(list.tok, work, i) as usize,
        byte,
    )
}
