// What a node's children need of it: what stands before each, the mode that it is handed, whether they are exchanged.
ghost use Rattle.std.specs.Prelude.{◌≡◌};
ghost use Rattle.writer.specs.Put.{Put};
ghost use Rattle.tree.specs.Walk.{head_at};
ghost use Rattle.mathml_rules.specs.Pieces.{written};
ghost use Rattle.mathml_rules.specs.Mathml.{text_mode, simple_mode, func_mode, handed};
ghost use Rattle.mathml_rules.specs.Parts.{between_func, between_rows, before, swaps, cols_of, cells_left};
ghost use Rattle.mathml_heads.specs.Spans.{script_of};

use crate::node::Node;
use crate::script::{arguments_of, put_finish_script};
use mathml_commands::binary::is_exchanging;
use mathml_commands::unary::is_text;
use mathml_rules::Mode;
use mathml_tags::elements::Element;
use mathml_tags::leaf::put_apply;
use mathml_tags::tags::{put_end, put_start};
use tree::kinds::{NODE_BINARY, NODE_FRAC, NODE_FUNC, NODE_MATRIX, NODE_SIMPLE, NODE_UNARY};

// Before a function's argument: the end tag of the script's element, then the sign of application.
fn put_between_func(out: &mut [u8], at: usize, script: u32, name: &[u8], i: usize) -> usize
    ensures { Put out.old at out.new result (written (between_func (script_of script) name.now i)) }
{
    if i == arguments_of(script) {
        let end = put_finish_script(out, at, script);
        return put_apply(out, end, name);
    }
    at
}

// Where a row is full, the next one begins.
fn put_between_rows(out: &mut [u8], at: usize, left: usize) -> usize
    ensures { Put out.old at out.new result (written (between_rows left)) }
{
    if left == 0 {
        let end = put_end(out, at, Element::Mtr);
        return put_start(out, end, Element::Mtr);
    }
    at
}

// How many cells are left in the row behind the next one.
pub fn cells_left(cols: usize, left: usize) -> usize
    ensures { result ≡ cells_left cols left }
{
    if left > 0 {
        left - 1
    } else {
        cols.saturating_sub(1)
    }
}

fn text_mode(s: &[u8]) -> Mode
    ensures { result ≡ text_mode s.now }
{
    if is_text(s) {
        Mode::Text
    } else {
        Mode::Argument
    }
}

fn simple_mode(script: u32, m: Mode, i: usize) -> Mode
    ensures { result ≡ simple_mode (script_of script) m i }
{
    if arguments_of(script) == 0 {
        m
    } else if i == 0 {
        Mode::Keep
    } else {
        Mode::Argument
    }
}

fn func_mode(script: u32, i: usize) -> Mode
    ensures { result ≡ func_mode (script_of script) i }
{
    if i < arguments_of(script) {
        Mode::Argument
    } else {
        Mode::Keep
    }
}

impl Node<'_> {
    // What stands before child i, with so many cells left in its row.
    pub fn put_before(&self, out: &mut [u8], at: usize, i: usize, left: usize) -> usize
        ensures { Put out.old at out.new result (written (before self.now.text.now (head_at self.now.words.now self.now.kind self.now.head) i left)) }
    {
        match self.kind {
            NODE_FUNC => put_between_func(out, at, self.word(3), self.left_text(), i),
            NODE_MATRIX => put_between_rows(out, at, left),
            _ => at,
        }
    }

    // The columns of a matrix; 0 for any other node.
    pub fn columns(&self) -> usize
        ensures { result ≡ cols_of (head_at self.now.words.now self.now.kind self.now.head) }
    {
        if self.kind == NODE_MATRIX {
            self.word(6) as usize
        } else {
            0
        }
    }

    // The mode of child i, where the node's own is m.
    pub fn mode_below(&self, m: Mode, i: usize) -> Mode
        ensures { result ≡ handed self.now.text.now m (head_at self.now.words.now self.now.kind self.now.head) i }
    {
        match self.kind {
            NODE_UNARY => text_mode(self.left_text()),
            NODE_BINARY | NODE_FRAC => Mode::Argument,
            NODE_SIMPLE => simple_mode(self.word(3), m, i),
            NODE_FUNC => func_mode(self.word(3), i),
            _ => Mode::Keep,
        }
    }

    // root, stackrel, overset and underset have their children exchanged.
    pub fn swaps_children(&self) -> bool
        ensures { result ≡ swaps self.now.text.now (head_at self.now.words.now self.now.kind self.now.head) }
    {
        self.kind == NODE_BINARY && is_exchanging(self.left_text())
    }
}
