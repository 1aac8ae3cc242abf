// What opens a node.
ghost use Rattle.std.specs.Prelude.{[], ◌++◌};
ghost use Rattle.writer.specs.Put.{Put};
ghost use Rattle.tree.specs.Walk.{head_at};
ghost use Rattle.mathml_rules.specs.Forms.{shown};
ghost use Rattle.mathml_rules.specs.Pieces.{written, E, L};
ghost use Rattle.mathml_rules.specs.Mathml.{symbol_element};
ghost use Rattle.mathml_rules.specs.Parts.{begin, kept, opening};
ghost use Rattle.mathml_tags.specs.Element.{element_number};
ghost use Rattle.mathml_heads.specs.Spans.{class_of, sfunc_opening, func_opening, matrix_opening};

use crate::node::Node;
use crate::script::put_begin_script;
use mathml_commands::binary::binary_element;
use mathml_commands::dropped::drops;
use mathml_commands::unary::put_begin_unary;
use mathml_forms::shown::{put_bracket, put_drawn};
use mathml_rules::Mode;
use mathml_tags::elements::Element;
use mathml_tags::leaf::{put_apply, put_leaf};
use mathml_tags::lines::put_table;
use mathml_tags::tags::{put_end, put_start};
use tree::kinds::{
    NODE_BINARY, NODE_CELL, NODE_FRAC, NODE_FUNC, NODE_GROUP, NODE_IDENT, NODE_MATRIX, NODE_NUMBER,
    NODE_OPERATOR, NODE_SFUNC, NODE_SIGN, NODE_SIGNED, NODE_SIMPLE, NODE_SPACE, NODE_SSIGNED,
    NODE_SYMBOL, NODE_TEXT, NODE_UNARY,
};
use tree::walk::lines_at;

// An element with nothing in it.
fn put_empty(out: &mut [u8], at: usize, e: Element) -> usize
    ensures { Put out.old at out.new result (written (E (element_number e) [])) }
{
    let end = put_start(out, at, e);
    put_end(out, end, e)
}

// Its class is a word of the tree: docs/LAYOUT.md.
fn put_symbol(out: &mut [u8], at: usize, class: u32, s: &[u8]) -> usize
    ensures { Put out.old at out.new result (written (L (symbol_element (class_of class)) (shown s.now))) }
{
    match class {
        2..=5 | 7 => put_drawn(out, at, Element::MoSymbol, s),
        _ => put_drawn(out, at, Element::MoTight, s),
    }
}

// A sign before its operand.
fn put_signed(out: &mut [u8], at: usize, e: Element, s: &[u8]) -> usize
    ensures { Put out.old at out.new result (written (begin (element_number e) ++ L 5 (shown s.now))) }
{
    let end = put_start(out, at, e);
    put_drawn(out, end, Element::MoSign, s)
}

// A function's name in a simple place.
fn put_sfunc(out: &mut [u8], at: usize, s: &[u8]) -> usize
    ensures { Put out.old at out.new result (written (sfunc_opening s.now)) }
{
    let a = put_start(out, at, Element::MrowSfunc);
    let b = put_leaf(out, a, Element::Mi, s);
    put_apply(out, b, s)
}

fn put_func(out: &mut [u8], at: usize, script: u32, s: &[u8]) -> usize
    ensures { Put out.old at out.new result (written (func_opening script s.now)) }
{
    let a = put_start(out, at, Element::MrowFunc);
    let b = put_begin_script(out, a, script);
    put_leaf(out, b, Element::Mi, s)
}

// A bracket s of a group whose brackets are these two.
pub(crate) fn put_kept(
    out: &mut [u8],
    at: usize,
    m: Mode,
    left: &[u8],
    right: &[u8],
    s: &[u8],
) -> usize
    ensures { Put out.old at out.new result (written (kept m left.now right.now s.now)) }
{
    if drops(m, left, right) {
        return at;
    }
    put_bracket(out, at, s)
}

fn put_group(out: &mut [u8], at: usize, m: Mode, left: &[u8], right: &[u8]) -> usize
    ensures { Put out.old at out.new result (written (begin 15 ++ kept m left.now right.now left.now)) }
{
    let end = put_start(out, at, Element::MrowGroup);
    put_kept(out, end, m, left, right, left)
}

// The left bracket, the table's start tag and that of its first row.
fn put_matrix(out: &mut [u8], at: usize, left: &[u8], cols: usize, lines: &[u32]) -> usize
    ensures { Put out.old at out.new result (written (matrix_opening left.now cols lines.now)) }
{
    let a = put_start(out, at, Element::MrowMatrix);
    let b = put_bracket(out, a, left);
    let c = put_table(out, b, cols, lines);
    put_start(out, c, Element::Mtr)
}

impl Node<'_> {
    // What opens the node.
    pub fn put_opening(&self, out: &mut [u8], at: usize, m: Mode) -> usize
        ensures { Put out.old at out.new result (written (opening self.now.text.now m (head_at self.now.words.now self.now.kind self.now.head))) }
    {
        let s = self.left_text();
        let held = self.word(3);
        match self.kind {
            NODE_NUMBER => put_leaf(out, at, Element::Mn, s),
            NODE_TEXT => put_leaf(out, at, Element::Mtext, s),
            NODE_IDENT => put_leaf(out, at, Element::Mi, s),
            NODE_OPERATOR => put_leaf(out, at, Element::Mo, s),
            NODE_SIGN => put_drawn(out, at, Element::MoSign, s),
            NODE_SPACE => put_empty(out, at, Element::Mspace),
            NODE_SYMBOL => put_symbol(out, at, held, s),
            NODE_SIGNED => put_signed(out, at, Element::MrowSigned, s),
            NODE_SSIGNED => put_signed(out, at, Element::MrowSsigned, s),
            NODE_UNARY => put_begin_unary(out, at, s),
            NODE_SFUNC => put_sfunc(out, at, s),
            NODE_BINARY => put_start(out, at, binary_element(s)),
            NODE_SIMPLE => put_begin_script(out, at, held),
            NODE_FUNC => put_func(out, at, held, s),
            NODE_GROUP => put_group(out, at, m, s, self.right_text()),
            NODE_MATRIX => put_matrix(
                out,
                at,
                s,
                self.word(6) as usize,
                lines_at(self.words, self.head),
            ),
            NODE_CELL => put_start(out, at, Element::Mtd),
            NODE_FRAC => put_start(out, at, Element::Mfrac),
            _ => put_empty(out, at, Element::MrowMissing),
        }
    }
}
