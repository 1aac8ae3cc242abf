// One line of the printed tree, from the words of its node.
#![tactic(auto)]

ghost use Rattle.std.specs.Prelude.{◌≡◌, get_or};
ghost use Rattle.tree.specs.Walk.{lines_of};
ghost use Rattle.writer.specs.Put.{Put};
ghost use Rattle.line.specs.Print.{name_of, field, number, commas};
ghost use Rattle.line.specs.Lines.{script_of, left_of, right_of, group_of, matrix_of, added_by, start_of, line_of};

use tree::kinds::{
    NODE_BINARY, NODE_CELL, NODE_FRAC, NODE_FUNC, NODE_GROUP, NODE_IDENT, NODE_MATRIX,
    NODE_MISSING, NODE_NUMBER, NODE_OPERATOR, NODE_SFUNC, NODE_SIGN, NODE_SIGNED, NODE_SIMPLE,
    NODE_SPACE, NODE_SSIGNED, NODE_SYMBOL, NODE_TEXT, NODE_UNARY,
};
use tree::walk::{Opened, column_lines, own_words, word};
use writer::{put_bytes, put_number};

fn name(kind: u32) -> &'static [u8]
    ensures { result.now ≡ name_of kind }
{
    match kind {
        NODE_MISSING => b"missing",
        NODE_NUMBER => b"number",
        NODE_TEXT => b"text",
        NODE_IDENT => b"ident",
        NODE_OPERATOR => b"operator",
        NODE_SIGN => b"sign",
        NODE_SPACE => b"space",
        NODE_SYMBOL => b"symbol",
        NODE_SIGNED => b"signed",
        NODE_SSIGNED => b"ssigned",
        NODE_UNARY => b"unary",
        NODE_SFUNC => b"sfunc",
        NODE_BINARY => b"binary",
        NODE_SIMPLE => b"simple",
        NODE_FUNC => b"func",
        NODE_GROUP => b"group",
        NODE_MATRIX => b"matrix",
        NODE_CELL => b"cell",
        NODE_FRAC => b"frac",
        _ => b"",
    }
}

#[tactic(auto, using(writer::proofs::Puts::none), unfolding(crate::specs::Lines::script_of))]
// kept: a script's number is a word of the tree, which C reads (docs/LAYOUT.md)
fn put_script(out: &mut [u8], at: usize, script: u32) -> usize
    ensures { Put out.old at out.new result (script_of script) }
{
    match script {
        0 => put_bytes(out, at, b" script=none"),
        1 => put_bytes(out, at, b" script=sub"),
        2 => put_bytes(out, at, b" script=super"),
        _ => put_bytes(out, at, b" script=subsuper"),
    }
}

// at and len, for every node that stands for a token or a left bracket.
#[tactic(auto, using(writer::proofs::Puts::none), unfolding(crate::specs::Lines::left_of))]
fn put_left(own: &[u32], out: &mut [u8], at: usize, kind: u32) -> usize
    ensures { Put out.old at out.new result (left_of kind (get_or own.now 1 0) (get_or own.now 2 0)) }
{
    match kind {
        NODE_MISSING | NODE_SIMPLE | NODE_CELL | NODE_FRAC => at,
        _ => {
            let start = word(own, 1) as u64;
            let len = word(own, 2) as u64;
            let end = put_number(out, at, b" at=", start);
            put_number(out, end, b" len=", len)
        }
    }
}

// rat and rlen.
fn put_right(own: &[u32], out: &mut [u8], at: usize) -> usize
    ensures { Put out.old at out.new result (right_of (get_or own.now 4 0) (get_or own.now 5 0)) }
{
    let start = word(own, 4) as u64;
    let len = word(own, 5) as u64;
    let end = put_number(out, at, b" rat=", start);
    put_number(out, end, b" rlen=", len)
}

fn put_items(out: &mut [u8], at: usize, items: usize) -> usize
    ensures { Put out.old at out.new result (number "items" items) }
{
    put_number(out, at, b" items=", items as u64)
}

// The column lines with commas, or none.
fn put_lines(out: &mut [u8], at: usize, lines: &[u32]) -> usize
    ensures { Put out.old at out.new result (field "lines" (commas lines.now)) }
{
    if lines.is_empty() {
        return put_bytes(out, at, b" lines=none");
    }
    let mut end = put_number(out, at, b" lines=", lines[0] as u64);
    for &line in &lines[1..] {
        end = put_number(out, end, b",", line as u64);
    }
    end
}

fn put_group(own: &[u32], out: &mut [u8], at: usize, count: usize) -> usize
    ensures { Put out.old at out.new result (group_of (get_or own.now 4 0) (get_or own.now 5 0) count) }
{
    let end = put_right(own, out, at);
    put_items(out, end, count)
}

fn put_matrix(words: &[u32], own: &[u32], out: &mut [u8], at: usize, o: Opened) -> usize
    ensures { Put out.old at out.new result (matrix_of (get_or own.now 4 0) (get_or own.now 5 0) (get_or own.now 6 0) o.count (lines_of words.now o)) }
{
    let a = put_right(own, out, at);
    let b = put_number(out, a, b" cols=", word(own, 6) as u64);
    let c = put_number(out, b, b" cells=", o.count as u64);
    put_lines(out, c, column_lines(words, o))
}

// What the kind adds.
#[tactic(auto, using(writer::proofs::Puts::none), unfolding(crate::specs::Lines::added_by))]
fn put_added(words: &[u32], own: &[u32], out: &mut [u8], at: usize, o: Opened) -> usize
    ensures { Put out.old at out.new result
        (added_by o.kind (get_or own.now 3 0) (get_or own.now 4 0) (get_or own.now 5 0) (get_or own.now 6 0) o.count (lines_of words.now o)) }
{
    let kind = o.kind;
    let x = word(own, 3);
    match kind {
        NODE_SYMBOL => put_number(out, at, b" class=", x as u64),
        NODE_SIMPLE | NODE_FUNC => put_script(out, at, x),
        NODE_GROUP => put_group(own, out, at, o.count),
        NODE_MATRIX => put_matrix(words, own, out, at, o),
        NODE_CELL => put_items(out, at, o.count),
        _ => at,
    }
}

fn put_start(out: &mut [u8], at: usize, depth: usize, kind: u32) -> usize
    ensures { Put out.old at out.new result (start_of depth kind) }
{
    let a = put_number(out, at, b"depth=", depth as u64);
    let b = put_bytes(out, a, b" node=");
    put_bytes(out, b, name(kind))
}

// The line of a node that a step of a walk over these words has opened.
pub fn put_line(words: &[u32], out: &mut [u8], at: usize, o: Opened, depth: usize) -> usize
    ensures { Put out.old at out.new result (line_of words.now o depth) }
{
    let kind = o.kind;
    let own = own_words(words, o.head);
    let a = put_start(out, at, depth, kind);
    let b = put_left(own, out, a, kind);
    let c = put_added(words, own, out, b, o);
    put_bytes(out, c, b"\n")
}
