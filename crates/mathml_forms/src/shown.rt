// A text's display form, or its own bytes if it has none.
ghost use Rattle.writer.specs.Put.{Put};
ghost use Rattle.mathml_rules.specs.Pieces.{esc, written, L};
ghost use Rattle.mathml_rules.specs.Forms.{shown};
ghost use Rattle.mathml_tags.specs.Element.{element_number};
ghost use Rattle.mathml_forms.specs.Drawn.{unpacked, drawn_as, bracket};

use crate::forms::form_word;
use mathml_tags::elements::Element;
use mathml_tags::escape::put_escaped;
use mathml_tags::tags::{put_end, put_start};

// The word of no form.
// kept: a number and no Option, since a row of the table is one number (tools/make_mathml_forms.py)
const NO_FORM: u64 = 0;

// The word of the form that has no bytes.
const EMPTY_FORM: u64 = 1;

// The bytes that a word holds behind its 1.
fn put_packed(out: &mut [u8], at: usize, word: u64) -> usize
    ensures { Put out.old at out.new result (esc (unpacked word)) }
{
    if word < 256 {
        at
    } else {
        let end = put_packed(out, at, word / 256);
        put_escaped(out, end, &[(word % 256) as u8])
    }
}

// A text that has this word as its form.
fn put_by_word(out: &mut [u8], at: usize, word: u64, s: &[u8]) -> usize
    ensures { Put out.old at out.new result (esc (drawn_as word s.now)) }
{
    if word == NO_FORM {
        put_escaped(out, at, s)
    } else {
        put_packed(out, at, word)
    }
}

pub fn put_shown(out: &mut [u8], at: usize, s: &[u8]) -> usize
    ensures { Put out.old at out.new result (esc (shown s.now)) }
{
    put_by_word(out, at, form_word(s), s)
}

// An element that holds what a text is shown as.
pub fn put_drawn(out: &mut [u8], at: usize, e: Element, s: &[u8]) -> usize
    ensures { Put out.old at out.new result (written (L (element_number e) (shown s.now))) }
{
    let a = put_start(out, at, e);
    let b = put_shown(out, a, s);
    put_end(out, b, e)
}

// A bracket, or nothing if it is shown as nothing.
pub fn put_bracket(out: &mut [u8], at: usize, s: &[u8]) -> usize
    ensures { Put out.old at out.new result (written (bracket s.now)) }
{
    let word = form_word(s);
    if s.is_empty() || word == EMPTY_FORM {
        return at;
    }
    let a = put_start(out, at, Element::Mo);
    let b = put_by_word(out, a, word, s);
    put_end(out, b, Element::Mo)
}
