// The words of a node that stands for one entry, and the leaves, which have no node below.
#![tactic(auto)]

ghost use Rattle.std.specs.Prelude.{◌≡◌};
ghost use Rattle.buffer.specs.Buffer.{stored};
ghost use Rattle.leaves.specs.Leaves.{node_words, leaf_kind, leaf_class, leaf_ends, leaf_words, plain_words, leaf_bar};

use buffer::{fits, put};
use lookahead::list::List;
use records::record::{len_at, start_at};
use spans::is_byte;
use tokens::kinds::{IDENT, NUMBER, OPEN_CLOSE_BRACKET, OPERATOR, SEP, SIGN, SYMBOL, TEXT};
use tree::kinds::{
    NODE_IDENT, NODE_NUMBER, NODE_OPERATOR, NODE_SIGN, NODE_SIMPLE, NODE_SYMBOL, NODE_TEXT,
};

// A node of the entry i: its kind, its span and one word more. Inline: passing all this takes longer than the stores.
#[inline(always)]
pub fn put_node(
    list: &List<'_>,
    work: &[u32],
    tree: &mut [u32],
    e: usize,
    kind: u32,
    i: usize,
    extra: u32,
)
    ensures { tree.new ≡ stored tree.old e (node_words list.now.tok.now work.now i kind extra) }
{
    let start = start_at(list.tok, work, i);
    let len = len_at(list.tok, work, i);
    put(tree, e, &[kind, start, len, extra, 0, 0]);
}

// The classes of symbols that a token of another kind gets: a stray mark or bracket is a glyph.
const GLYPH: u32 = 0;

const SEPARATOR: u32 = 7;

// The first kind of symbols that does not end an operand: Glyph and Name stand before it.
const JOINING_SYMBOL: u32 = SYMBOL + 2;

// A leaf's node kind, its class, and whether it ends an operand, by the kind of its token.
// kept: the numbers of kinds and classes are words of the table and the tree, the C interface (docs/LAYOUT.md)
fn leaf_kind(k: u32) -> u32
    ensures { result ≡ leaf_kind k }
{
    match k {
        NUMBER => NODE_NUMBER,
        TEXT => NODE_TEXT,
        IDENT => NODE_IDENT,
        OPERATOR => NODE_OPERATOR,
        SIGN => NODE_SIGN,
        _ => NODE_SYMBOL,
    }
}

fn leaf_class(k: u32) -> u32
    ensures { result ≡ leaf_class k }
{
    match k {
        SEP => SEPARATOR,
        SYMBOL..SIGN => k - SYMBOL,
        _ => GLYPH,
    }
}

// Of the symbols, Glyph and Name do; a stray mark and a bar alone are glyphs.
pub fn leaf_ends(k: u32) -> bool
    ensures { result ≡ leaf_ends k }
{
    !matches!(k, SEP | OPERATOR | JOINING_SYMBOL..OPEN_CLOSE_BRACKET)
}

// The leaf of the entry i, of kind k.
pub fn put_leaf(list: &List<'_>, work: &[u32], tree: &mut [u32], e: usize, i: usize, k: u32)
    ensures { tree.new ≡ stored tree.old e (leaf_words list.now.tok.now work.now i k) }
{
    let kind = leaf_kind(k);
    let class = leaf_class(k);
    put_node(list, work, tree, e, kind, i, class);
}

// The item that is this leaf alone.
pub fn put_plain(list: &List<'_>, work: &[u32], tree: &mut [u32], e: usize, i: usize, k: u32)
    ensures { tree.new ≡ stored tree.old e (plain_words list.now.tok.now work.now i k) }
{
    if fits(tree.len(), e, 13) {
        put(tree, e, &[0, NODE_SIMPLE, 0, 0, 0, 0, 0]);
        put_leaf(list, work, tree, e + 7, i, k);
    }
}

// The leaf of the entry i, of kind k, is a symbol with the text `|`.
#[tactic(auto, unfolding(crate::specs::Leaves::leaf_bar))]
pub fn leaf_bar(list: &List<'_>, work: &[u32], i: usize, k: u32) -> bool
    ensures { result ≡ leaf_bar list.now.text.now list.now.tok.now work.now i k }
{
    leaf_kind(k) == NODE_SYMBOL && is_byte(list, work, i, b'|')
}
