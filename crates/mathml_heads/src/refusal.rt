// Whether a node by itself is refused by 11.
ghost use Rattle.std.specs.Prelude.{◌≡◌};
ghost use Rattle.tree.specs.Walk.{head_at};
ghost use Rattle.mathml_rules.specs.Refusal.{refused_head};
ghost use Rattle.mathml_heads.specs.Spans.{unary_refused, binary_refused, brackets_refused, matrix_refused};

use crate::node::Node;
use mathml_commands::refused::{has_control, is_refused_binary, is_refused_unary, refuses_lines};
use tree::kinds::{
    NODE_BINARY, NODE_FUNC, NODE_GROUP, NODE_MATRIX, NODE_NUMBER, NODE_SFUNC, NODE_SSIGNED,
    NODE_UNARY,
};
use tree::walk::lines_at;

fn refuses_unary(s: &[u8]) -> bool
    ensures { result ≡ unary_refused s.now }
{
    has_control(s) || is_refused_unary(s)
}

fn refuses_binary(s: &[u8]) -> bool
    ensures { result ≡ binary_refused s.now }
{
    has_control(s) || is_refused_binary(s)
}

fn refuses_brackets(left: &[u8], right: &[u8]) -> bool
    ensures { result ≡ brackets_refused left.now right.now }
{
    has_control(left) || has_control(right)
}

fn refuses_matrix(left: &[u8], right: &[u8], cols: usize, lines: &[u32]) -> bool
    ensures { result ≡ matrix_refused left.now right.now cols lines.now }
{
    refuses_brackets(left, right) || refuses_lines(cols, lines)
}

impl Node<'_> {
    // Whether the node is refused, its children aside.
    pub fn is_refused(&self) -> bool
        ensures { result ≡ refused_head self.now.text.now (head_at self.now.words.now self.now.kind self.now.head) }
    {
        let s = self.left_text();
        match self.kind {
            NODE_NUMBER..=NODE_SSIGNED | NODE_SFUNC | NODE_FUNC => has_control(s),
            NODE_UNARY => refuses_unary(s),
            NODE_BINARY => refuses_binary(s),
            NODE_GROUP => refuses_brackets(s, self.right_text()),
            NODE_MATRIX => refuses_matrix(
                s,
                self.right_text(),
                self.word(6) as usize,
                lines_at(self.words, self.head),
            ),
            _ => false,
        }
    }
}
