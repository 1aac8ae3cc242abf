// What closes a node.
ghost use Rattle.std.specs.Prelude.{◌++◌};
ghost use Rattle.writer.specs.Put.{Put};
ghost use Rattle.tree.specs.Walk.{head_at};
ghost use Rattle.mathml_rules.specs.Pieces.{written};
ghost use Rattle.mathml_rules.specs.Parts.{finish, kept, closing};
ghost use Rattle.mathml_heads.specs.Spans.{matrix_closing};

use crate::node::Node;
use crate::opening::put_kept;
use crate::script::put_finish_script;
use mathml_commands::binary::binary_element;
use mathml_commands::unary::put_finish_unary;
use mathml_forms::shown::put_bracket;
use mathml_rules::Mode;
use mathml_tags::elements::Element;
use mathml_tags::tags::put_end;
use tree::kinds::{
    NODE_BINARY, NODE_CELL, NODE_FRAC, NODE_FUNC, NODE_GROUP, NODE_MATRIX, NODE_SFUNC, NODE_SIGNED,
    NODE_SIMPLE, NODE_SSIGNED, NODE_UNARY,
};

fn put_group(out: &mut [u8], at: usize, m: Mode, left: &[u8], right: &[u8]) -> usize
    ensures { Put out.old at out.new result (written (kept m left.now right.now right.now ++ finish 15)) }
{
    let end = put_kept(out, at, m, left, right, right);
    put_end(out, end, Element::MrowGroup)
}

// The end tags of the last row and of the table, and the right bracket.
fn put_matrix(out: &mut [u8], at: usize, right: &[u8]) -> usize
    ensures { Put out.old at out.new result (written (matrix_closing right.now)) }
{
    let a = put_end(out, at, Element::Mtr);
    let b = put_end(out, a, Element::Mtable);
    let c = put_bracket(out, b, right);
    put_end(out, c, Element::MrowMatrix)
}

impl Node<'_> {
    // What closes the node.
    pub fn put_closing(&self, out: &mut [u8], at: usize, m: Mode) -> usize
        ensures { Put out.old at out.new result (written (closing self.now.text.now m (head_at self.now.words.now self.now.kind self.now.head))) }
    {
        let s = self.left_text();
        match self.kind {
            NODE_SIGNED => put_end(out, at, Element::MrowSigned),
            NODE_SSIGNED => put_end(out, at, Element::MrowSsigned),
            NODE_UNARY => put_finish_unary(out, at, s),
            NODE_SFUNC => put_end(out, at, Element::MrowSfunc),
            NODE_BINARY => put_end(out, at, binary_element(s)),
            NODE_SIMPLE => put_finish_script(out, at, self.word(3)),
            NODE_FUNC => put_end(out, at, Element::MrowFunc),
            NODE_GROUP => put_group(out, at, m, s, self.right_text()),
            NODE_MATRIX => put_matrix(out, at, self.right_text()),
            NODE_CELL => put_end(out, at, Element::Mtd),
            NODE_FRAC => put_end(out, at, Element::Mfrac),
            _ => at,
        }
    }
}
