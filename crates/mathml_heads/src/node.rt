// A node of a tree by its own words, and the text of its spans.
ghost use Rattle.std.specs.Prelude.{◌≡◌, get_or, take, drop};
ghost use Rattle.mathml_rules.specs.Mathml.{own};
ghost use Rattle.mathml_heads.specs.Spans.{left_span, right_span};

use tree::walk::{own_words, word};

// The tree's words and the text, the node's kind, and where its own words begin.
#[derive(Clone, Copy)]
pub struct Node<'a> {
    pub words: &'a [u32],
    pub text: &'a [u8],
    pub kind: u32,
    pub head: usize,
}

// As far as the text goes.
#[tactic(auto, using(std::proofs::lemmas::List::take_min))]
fn span_text(text: &[u8], at: usize, len: usize) -> &[u8]
    ensures { result.now ≡ take len (drop at text.now) }
{
    let rest = &text[at.min(text.len())..];
    &rest[..len.min(rest.len())]
}

impl<'a> Node<'a> {
    // Its own word at i.
    pub(crate) fn word(&self, i: usize) -> u32
        ensures { result ≡ get_or (drop self.now.head self.now.words.now) i 0 }
    {
        word(own_words(self.words, self.head), i)
    }

    // The token's bytes, or the left bracket's.
    pub(crate) fn left_text(&self) -> &'a [u8]
        ensures { result.now ≡ own self.now.text.now (left_span (drop self.now.head self.now.words.now)) }
    {
        span_text(self.text, self.word(1) as usize, self.word(2) as usize)
    }

    pub(crate) fn right_text(&self) -> &'a [u8]
        ensures { result.now ≡ own self.now.text.now (right_span (drop self.now.head self.now.words.now)) }
    {
        span_text(self.text, self.word(4) as usize, self.word(5) as usize)
    }
}
