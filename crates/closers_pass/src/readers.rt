// The readers of the Rust's parse.rs, without a tree. They call one another back; 256 less the cursor's depth falls.
ghost use Rattle.std.specs.Prelude.{◌≡◌, true, false, ◌<◌};
ghost use Rattle.records.specs.Record.{kind_of};
ghost use Rattle.lookahead.specs.Tests.{test_at, begins_kind, opening};
ghost use Rattle.closers_pass.specs.Meet.{Ready, Simple, ScriptFunc, Intermediate, Scripts, Intermediates, Headed, Begun, OpenGroup, Bracket, TryMatrix, Bars, Term};
ghost use Rattle.closers_pass.specs.Matrix.{RowCells, MatrixRow, MoreRows, MatrixRows};

use crate::cursor::{
    Cells, Items, Node, Others, Part, Rows, Scripted, Tried, back, deeper, next, nothing,
    operation, over,
};
use crate::tests::{leaf, no_item, plain_item};
use brackets::{bar_at, could_be_matrix, makes_matrix};
use closers_notes::{give_up, note_closer};
use lookahead::depth::too_deep;
use lookahead::list::{List, choose};
use lookahead::tests::{Look, opens, prefix_stop, takes_one};
use marks::{MATRIX_MARK, failed_at, open_mark};
use reading_cursor::Cursor;
use records::record::kind_at;
use rows::{cells_left, is_pair, is_round};
use tokens::kinds::{
    BINARY, CLOSE_BRACKET, FRAC, FUNCTION, OPEN_BRACKET, OPEN_CLOSE_BRACKET, SEP, SUPER,
};

// The scripts at the cursor.
#[cycle(readers)]
fn next_script(list: &List<'_>, work: &mut [u32], c: Cursor) -> Scripted
    requires { Ready list.now.n work.old c }
    ensures { Scripts list.now.text.now list.now.tok.now list.now.n work.old work.new c result }
{
    let pos = c.pos as usize;
    if !list.marks_at(work, pos) {
        return Scripted {
            cur: c.look(list.n),
            some: false,
        };
    }
    let sup = list.is_at(work, pos, SUPER);
    let a = next_simple(list, work, next(c), false, true);
    let ac = a.cur;
    if sup {
        return Scripted {
            cur: ac,
            some: true,
        };
    }
    let at = ac.pos as usize;
    if list.is_at(work, at, SUPER) {
        let b = next_simple(list, work, next(ac), false, true);
        return Scripted {
            cur: b.cur,
            some: true,
        };
    }
    Scripted {
        cur: ac.look(list.n),
        some: true,
    }
}

// A scripted part, which a function or a prefixing sign can head.
#[cycle(readers)]
fn next_script_func(list: &List<'_>, work: &mut [u32], c: Cursor, stop: bool, sign: bool) -> Part
    requires { Ready list.now.n work.old c }
    ensures { ScriptFunc list.now.text.now list.now.tok.now list.now.n work.old work.new stop sign c result }
{
    let depth = c.depth;
    if too_deep(depth) {
        return nothing(c);
    }
    let pos = c.pos as usize;
    if list.heads_at(work, pos, sign) {
        let d = headed(list, work, deeper(next(c)), stop, pos);
        return operation(d.at_depth(depth));
    }
    let s = term(list, work, deeper(c.look(list.n)), stop, sign);
    back(s, depth)
}

// A term: a simple expression with its scripts.
#[cycle(readers)]
fn term(list: &List<'_>, work: &mut [u32], c: Cursor, stop: bool, sign: bool) -> Part
    requires { Ready list.now.n work.old c }
    ensures { Term list.now.text.now list.now.tok.now list.now.n work.old work.new stop sign c result }
{
    let s = next_simple(list, work, c, stop, sign);
    let Some(node) = s.node else {
        return s;
    };
    let sc = s.cur;
    let at = sc.pos as usize;
    // as next_script would find it, without the call
    if !list.marks_at(work, at) {
        return Part {
            cur: sc.look(list.n),
            ..s
        };
    }
    let m = next_script(list, work, sc);
    Part {
        cur: m.cur,
        node: Some(Node {
            bar: !m.some && node.bar,
            ..node
        }),
    }
}

// What the function or the sign at i heads.
#[cycle(readers)]
fn headed(list: &List<'_>, work: &mut [u32], c: Cursor, stop: bool, i: usize) -> Cursor
    requires ready { Ready list.now.n work.old c }
    requires i_lt_n { i < list.now.n }
    ensures { Headed list.now.text.now list.now.tok.now list.now.n work.old work.new i stop c result }
{
    let func = list.is_at(work, i, FUNCTION);
    if func {
        let m = next_script(list, work, c);
        let g = next_script_func(list, work, m.cur, false, true);
        return g.cur;
    }
    let h = next_script_func(list, work, c, stop, true);
    h.cur
}

// One item: a scripted part, or a fraction of two.
#[cycle(readers)]
fn next_intermediate(list: &List<'_>, work: &mut [u32], c: Cursor, stop: bool, sign: bool) -> Part
    requires { Ready list.now.n work.old c }
    ensures { Intermediate list.now.text.now list.now.tok.now list.now.n work.old work.new stop sign c result }
{
    match list.first_look(work, c.depth as usize, stop, c.pos as usize) {
        Look::Plain => plain_item(list, work, c),
        Look::Over => no_item(list.n, c),
        Look::Other => {
            let a = next_script_func(list, work, c, stop, sign);
            if a.node.is_none() {
                return a;
            }
            let d = a.cur;
            let pos = d.pos as usize;
            if list.is_at(work, pos, FRAC) {
                let g = next_script_func(list, work, next(d), false, true);
                return Part {
                    cur: g.cur,
                    node: Some(Node {
                        ends: g.ends(),
                        bar: false,
                    }),
                };
            }
            Part {
                cur: d.look(list.n),
                ..a
            }
        }
    }
}

// The items from the cursor on, up to a bar behind an item like that at `until`, if an entry is there. `first0`: none stands before them.
#[cycle(readers)]
pub(crate) fn extend(
    list: &List<'_>,
    work: &mut [u32],
    c: Cursor,
    until: usize,
    stop: bool,
    first0: bool,
    sign0: bool,
) -> Items
    requires { Ready list.now.n work.old c }
    ensures { Intermediates list.now.text.now list.now.tok.now list.now.n work.old work.new until stop first0 sign0 c result }
{
    let mut cur = c;
    let mut first = first0;
    let mut some = false;
    let mut line = false;
    let mut sign = sign0;
    let met = 'items: loop {
        let pos = cur.pos as usize;
        let bar = choose(first, list.n, until);
        if bar_at(list, work, bar, pos) {
            break 'items true;
        }
        let g = next_intermediate(list, work, cur, stop, sign);
        cur = g.cur;
        let Some(node) = g.node else {
            break 'items false;
        };
        line = !some && node.bar;
        some = true;
        first = false;
        sign = !node.ends;
    };
    Items {
        cur,
        some,
        line,
        sign,
        met,
    }
}

// The cells behind a row's bracket, up to its closing bracket.
#[cycle(readers)]
fn row_cells(list: &List<'_>, work: &mut [u32], c: Cursor) -> Cells
    requires { Ready list.now.n work.old c }
    ensures { RowCells list.now.text.now list.now.tok.now list.now.n work.old work.new c result }
{
    let mut cur = c;
    let mut count: usize = 0;
    let mut kept: usize = 0;
    let close = 'cells: loop {
        let run = extend(list, work, cur, list.n, true, true, true);
        let rc = run.cur;
        let p = rc.pos as usize;
        count += 1;
        if !run.line {
            kept += 1;
        }
        cur = over(rc, list.n);
        if !list.is_at(work, p, SEP) {
            break 'cells list.is_at(work, p, CLOSE_BRACKET).then_some(p);
        }
    };
    Cells {
        cur,
        count,
        kept,
        close,
    }
}

// A matrix row; a token that opens none is taken too.
#[cycle(readers)]
fn next_row(list: &List<'_>, work: &mut [u32], c: Cursor) -> Cells
    requires { Ready list.now.n work.old c }
    ensures { MatrixRow list.now.text.now list.now.tok.now list.now.n work.old work.new c result }
{
    let pos = c.pos as usize;
    if list.is_at(work, pos, OPEN_BRACKET) {
        let row = row_cells(list, work, next(c));
        if let Some(right) = row.close {
            note_closer(work, pos, list.n, right);
        }
        return row;
    }
    Cells {
        cur: over(c, list.n),
        count: 0,
        kept: 0,
        close: None,
    }
}

// The rows behind the first one, which is of `cols` cells between round brackets, or else square ones.
#[cycle(readers)]
fn more_rows(list: &List<'_>, work: &mut [u32], c: Cursor, cols: usize, round: bool) -> Others
    requires { Ready list.now.n work.old c }
    ensures { MoreRows list.now.text.now list.now.tok.now list.now.n work.old work.new cols round c result }
{
    let mut cur = c;
    let mut more = false;
    let done = 'rows: loop {
        let p = cur.pos as usize;
        if !list.is_at(work, p, SEP) {
            break 'rows true;
        }
        let row = next_row(list, work, next(cur));
        cur = row.cur;
        let Some(right) = row.close else {
            break 'rows false;
        };
        if row.count != cols {
            break 'rows false;
        }
        if !is_pair(list, work, round, p + 1, right) {
            break 'rows false;
        }
        more = true;
    };
    Others { cur, done, more }
}

// The rows of a matrix, up to its closing bracket.
#[cycle(readers)]
fn next_rows(list: &List<'_>, work: &mut [u32], c: Cursor) -> Rows
    requires { Ready list.now.n work.old c }
    ensures { MatrixRows list.now.text.now list.now.tok.now list.now.n work.old work.new c result }
{
    let left = c.pos as usize;
    let row = next_row(list, work, c);
    let cur = row.cur;
    let cols = row.count;
    let kept = row.kept;
    if let Some(right) = row.close {
        let round = is_round(list, work, left);
        if is_pair(list, work, round, left, right) {
            let g = more_rows(list, work, cur, cols, round);
            let gc = g.cur;
            return Rows {
                cur: gc,
                done: g.done,
                more: g.more,
                cols,
                kept,
            };
        }
    }
    Rows {
        cur,
        done: false,
        more: false,
        cols,
        kept,
    }
}

// The matrix that the bracket at i opens, or nothing: a failed attempt is marked and given back.
#[cycle(readers)]
fn try_matrix(list: &List<'_>, work: &mut [u32], c: Cursor, i: usize) -> Tried
    requires ready { Ready list.now.n work.old c }
    requires i_lt_pos { i < c.pos }
    ensures { TryMatrix list.now.text.now list.now.tok.now list.now.n work.old work.new i c result }
{
    if !could_be_matrix(list, work, i) {
        return Tried {
            cur: c,
            made: false,
        };
    }
    if failed_at(work, i, MATRIX_MARK) {
        return Tried {
            cur: c,
            made: false,
        };
    }
    let from = c.pos;
    let rows = next_rows(list, work, c);
    let cur = rows.cur;
    let p = cur.pos as usize;
    let cells = cells_left(rows.done, rows.more, rows.cols, rows.kept);
    if makes_matrix(list, work, i, from as usize, cells, p) {
        note_closer(work, i, list.n, p);
        return Tried {
            cur: next(cur),
            made: true,
        };
    }
    give_up(work, i, MATRIX_MARK, from as usize, p);
    Tried {
        cur: cur.rewind(from),
        made: false,
    }
}

// The group that the bracket at i opens.
#[cycle(readers)]
fn open_group(list: &List<'_>, work: &mut [u32], c: Cursor, i: usize) -> Cursor
    requires ready { Ready list.now.n work.old c }
    requires i_lt_pos { i < c.pos }
    ensures { OpenGroup list.now.text.now list.now.tok.now list.now.n work.old work.new i c result }
{
    let run = extend(list, work, c, list.n, false, true, true);
    let cur = run.cur;
    let at = cur.pos as usize;
    if list.is_at(work, at, CLOSE_BRACKET) {
        note_closer(work, i, list.n, at);
        return next(cur);
    }
    cur.look(list.n)
}

// The matrix or the group that the bracket of kind k at i opens, or a bar alone.
#[cycle(readers)]
fn bracket(list: &List<'_>, work: &mut [u32], c: Cursor, stop: bool, i: usize, k: u32) -> Part
    requires ready { Ready list.now.n work.old c }
    requires i_lt_pos { i < c.pos }
    ensures { Bracket list.now.text.now list.now.tok.now list.now.n work.old work.new i k stop c result }
{
    let m = try_matrix(list, work, c, i);
    let d = m.cur;
    if m.made {
        return operation(d);
    }
    if k == OPEN_BRACKET {
        return operation(open_group(list, work, d, i));
    }
    bars(list, work, d, stop, i)
}

// The group between the bar at i and another like it, or the bar alone: a failed attempt is marked and given back.
#[cycle(readers)]
fn bars(list: &List<'_>, work: &mut [u32], c: Cursor, stop: bool, i: usize) -> Part
    requires ready { Ready list.now.n work.old c }
    requires i_lt_pos { i < c.pos }
    ensures { Bars list.now.text.now list.now.tok.now list.now.n work.old work.new i stop c result }
{
    let from = c.pos;
    let mark = open_mark(stop);
    if failed_at(work, i, mark) {
        return leaf(list, work, c, i, OPEN_CLOSE_BRACKET);
    }
    let run = extend(list, work, c, i, stop, true, true);
    let cur = run.cur;
    let at = cur.pos as usize;
    if !run.some {
        return leaf(list, work, cur, i, OPEN_CLOSE_BRACKET);
    }
    if run.met {
        note_closer(work, i, list.n, at);
        return operation(next(cur));
    }
    give_up(work, i, mark, from as usize, at);
    leaf(list, work, cur.rewind(from), i, OPEN_CLOSE_BRACKET)
}

// What the entry i of another kind k, just taken, begins: an operation or a leaf.
#[cycle(readers)]
fn other(
    list: &List<'_>,
    work: &mut [u32],
    c: Cursor,
    stop: bool,
    sign: bool,
    i: usize,
    k: u32,
) -> Part
    requires ready { Ready list.now.n work.old c }
    requires i_value { test_at list.now.tok.now work.old list.now.n (begins_kind stop) i ≡ true }
    requires i_lt_pos { i < c.pos }
    requires k_value { k ≡ kind_of list.now.tok.now work.old i }
    requires k_value_2 { opening k ≡ false }
    ensures { Begun list.now.text.now list.now.tok.now list.now.n work.old work.new i stop sign c result }
{
    if k == BINARY {
        let g = next_simple(list, work, c, false, true);
        let h = next_simple(list, work, g.cur, false, true);
        return operation(h.cur);
    }
    if takes_one(k, sign) {
        let p = next_simple(list, work, c, prefix_stop(k, stop), true);
        return operation(p.cur);
    }
    leaf(list, work, c, i, k)
}

// What the entry i, just taken, begins.
#[cycle(readers)]
fn begun(list: &List<'_>, work: &mut [u32], c: Cursor, stop: bool, sign: bool, i: usize) -> Part
    requires ready { Ready list.now.n work.old c }
    requires i_value { test_at list.now.tok.now work.old list.now.n (begins_kind stop) i ≡ true }
    requires i_lt_pos { i < c.pos }
    ensures { Begun list.now.text.now list.now.tok.now list.now.n work.old work.new i stop sign c result }
{
    let k = kind_at(list.tok, work, i);
    if opens(k) {
        bracket(list, work, c, stop, i, k)
    } else {
        other(list, work, c, stop, sign, i, k)
    }
}

// A simple expression. `sign`: a sign here prefixes what follows it.
#[cycle(readers)]
fn next_simple(list: &List<'_>, work: &mut [u32], c: Cursor, stop: bool, sign: bool) -> Part
    requires { Ready list.now.n work.old c }
    ensures { Simple list.now.text.now list.now.tok.now list.now.n work.old work.new stop sign c result }
{
    let depth = c.depth;
    if too_deep(depth) {
        return nothing(c);
    }
    let pos = c.pos as usize;
    if list.begins_at(work, pos, stop) {
        let g = begun(list, work, deeper(next(c)), stop, sign, pos);
        return back(g, depth);
    }
    nothing(c.look(list.n))
}
