// MathML of a text: docs/MATHML.md.
#![tactic(auto)]

mod node;
mod part;
mod pass;
mod place;
mod source;

ghost use Rattle.std.specs.Prelude.{◌≡◌, true, ◌≤◌};
ghost use Rattle.mathml_length.specs.Length.{longest};
ghost use Rattle.mathml.specs.Walks.{ItemsPut, RootPut};
ghost use Rattle.mathml.specs.Call.{answer_of, written_as, TreeMarked, marked_text};

use mathml_rules::Mode;
use mathml_tags::elements::Element;
use mathml_tags::tags::{put_end, put_start};
use node::put_node;
use parse::{Parsed, parse};
use pass::pass_row;
use place::inner_place;
use refusals::refusal::Refusal;
use source::Source;

// What the call answers: how many bytes the MathML has, takes, and whether the answer is blank.
#[derive(Clone, Copy, PartialEq, Eq)]
pub struct Marked {
    pub len: usize,
    pub takes: u64,
    pub blank: bool,
}

// The root's items.
fn put_items(source: &Source<'_>, out: &mut [u8], place: usize, items: usize) -> usize
    ensures { ItemsPut source.now.words.now source.now.text.now out.old place items out.new result }
{
    let mut at = 0;
    let mut end = place;
    for _ in 0..items {
        let p = inner_place(source.words, at, true);
        let r = put_node(source, out, p.at, p.items, end, Mode::Keep);
        at = r.at;
        end = r.end;
    }
    end
}

// The whole MathML: how many bytes it has, and in the buffer as many as it is long.
fn put_root(words: &[u32], text: &[u8], out: &mut [u8], items: usize) -> usize
    ensures { RootPut words.now text.now out.old items out.new result }
{
    let begun = put_start(out, 0, Element::Math);
    let end = put_items(&Source { words, text }, out, begun, items);
    put_end(out, end, Element::Math)
}

// No text that is read is longer. The MathML of one has at most so many bytes around its items, and so many for each of the text's:
// crates/mathml_length.
const LONGEST_TEXT: usize = 4096;

const AROUND: usize = 72;

const FOR_EACH: usize = 48;

// Whether the MathML of any text of so many bytes fits.
fn has_room(text: usize, out: usize) -> bool
    ensures { result ≡ true → longest text ≤ out }
{
    text <= LONGEST_TEXT && AROUND + FOR_EACH * text <= out
}

// The MathML of the tree whose words stand first in `words`, and how many bytes it has; or 11 or 12. Where it might not fit, its length is
// found first, with a buffer of one byte, so that a buffer that is too short stays as it was.
fn mark_tree(words: &[u32], text: &[u8], out: &mut [u8], items: usize) -> Result<usize, Refusal>
    ensures { TreeMarked words.now text.now out.old items out.new (written_as result) }
{
    let passed = pass_row(words, text, 0, items, true);
    if passed.refused {
        return Err(Refusal::NoMathml);
    }
    if has_room(text.len(), out.len()) {
        return Ok(put_root(words, text, out, items));
    }
    let mut probe = [0u8; 1];
    let need = put_root(words, text, &mut probe, items);
    if need <= out.len() {
        put_root(words, text, out, items);
        Ok(need)
    } else {
        Err(Refusal::ShortMathml)
    }
}

// Reads a text and writes its MathML: its bytes first in `out`, or a refusal by 1, 2, 7, 8, 9, 11 or 12.
pub fn mathml(
    text: &[u8],
    table: &mut [u32],
    work: &mut [u32],
    tree: &mut [u32],
    out: &mut [u8],
) -> Result<Marked, Refusal>
    ensures { (answer_of result, table.new, work.new, tree.new, out.new)
        ≡ marked_text text.now table.old work.old tree.old out.old }
{
    let Parsed {
        tokens: _,
        takes,
        items,
        blank,
    } = parse(text, table, work, tree)?;
    let len = mark_tree(tree, text, out, items as usize)?;
    Ok(Marked { len, takes, blank })
}
