// The readers of the Rust's parse.rs. They call one another back; 256 less the cursor's depth falls.
ghost use Rattle.std.specs.Prelude.{◌≡◌, true, false, ◌≤◌, ◌<◌};
ghost use Rattle.records.specs.Record.{kind_of};
ghost use Rattle.lookahead.specs.Tests.{test_at, begins_kind, opening};
ghost use Rattle.parse.specs.Meet.{Ready, Simple, ScriptFunc, Intermediate, Argument, Operand, Scripts, Intermediates, Headed, Begun, OpenGroup, Bracket, TryMatrix, Bars, Unary, Binary, Term, prefix_of};
ghost use Rattle.tree.specs.Words.{prefix_kind};
ghost use Rattle.parse.specs.Matrix.{RowCells, MatrixRow, MoreRows, MatrixRows};

use crate::cursor::{
    Cells, Items, Missed, Part, Rows, Scripted, Step, Why, back, deeper, next, over, past,
};
use crate::plain::plain_item;
use crate::tests::{head_kind, head_stop, prefix_kind, scripted};
use crate::write::{leaf, node_before, put, put_group, put_matrix, put_space, split_column_lines};
use brackets::{bar_at, could_be_matrix, makes_matrix};
use lookahead::depth::too_deep;
use lookahead::list::{List, choose};
use lookahead::tests::{opens, prefix_stop};
use marks::{MATRIX_MARK, failed_at, mark_failed, open_mark};
use reading_cursor::Cursor;
use records::record::kind_at;
use rows::{is_pair, is_round};
use tokens::kinds::{
    BINARY, CLOSE_BRACKET, FRAC, FUNCTION, OPEN_BRACKET, OPEN_CLOSE_BRACKET, SEP, SUPER,
};
use tree::kinds::{NODE_BINARY, NODE_CELL, NODE_MISSING, NODE_SIMPLE};

// A simple expression, or Missing.
#[cycle(readers)]
fn arg(list: &List<'_>, work: &mut [u32], tree: &mut [u32], c: Cursor, e: usize, stop: bool) -> Part
    requires { Ready 6 list.now.n list.now.text.now list.now.tok.now work.old tree.old c e }
    ensures { Argument list.now.text.now list.now.tok.now list.now.n work.old work.new stop c e tree.old tree.new result }
{
    match next_simple(list, work, tree, c, e, stop, true) {
        Ok(g) => g,
        Err(d) => {
            put(tree, e, &[NODE_MISSING, 0, 0, 0, 0, 0]);
            Part {
                cur: d.cur,
                end: e + 6,
                ends: false,
            }
        }
    }
}

// A scripted part, or Missing.
#[cycle(readers)]
fn operand(
    list: &List<'_>,
    work: &mut [u32],
    tree: &mut [u32],
    c: Cursor,
    e: usize,
    stop: bool,
) -> Part
    requires { Ready 12 list.now.n list.now.text.now list.now.tok.now work.old tree.old c e }
    ensures { Operand list.now.text.now list.now.tok.now list.now.n work.old work.new stop c e tree.old tree.new result }
{
    match next_script_func(list, work, tree, c, e, stop, true) {
        Ok(g) => g,
        Err(d) => {
            put(
                tree,
                e,
                &[NODE_SIMPLE, 0, 0, 0, 0, 0, NODE_MISSING, 0, 0, 0, 0, 0],
            );
            Part {
                cur: d.cur,
                end: e + 12,
                ends: false,
            }
        }
    }
}

// The scripts at the cursor.
#[cycle(readers)]
fn next_script(list: &List<'_>, work: &mut [u32], tree: &mut [u32], c: Cursor, e: usize) -> Scripted
    requires { Ready 0 list.now.n list.now.text.now list.now.tok.now work.old tree.old c e }
    ensures { Scripts list.now.text.now list.now.tok.now list.now.n work.old work.new c e tree.old tree.new result }
{
    let pos = c.pos as usize;
    if !list.marks_at(work, pos) {
        return Scripted {
            cur: c.look(list.n),
            end: e,
            script: 0,
        };
    }
    let sup = list.is_at(work, pos, SUPER);
    let a = arg(list, work, tree, next(c), e, false);
    if sup {
        return scripted(a, 2);
    }
    let at = a.cur.pos as usize;
    if list.is_at(work, at, SUPER) {
        let b = arg(list, work, tree, next(a.cur), a.end, false);
        return scripted(b, 3);
    }
    Scripted {
        cur: a.cur.look(list.n),
        end: a.end,
        script: 1,
    }
}

// A scripted part, which a function or a prefixing sign can head.
#[cycle(readers)]
fn next_script_func(
    list: &List<'_>,
    work: &mut [u32],
    tree: &mut [u32],
    c: Cursor,
    e: usize,
    stop: bool,
    sign: bool,
) -> Step
    requires { Ready 6 list.now.n list.now.text.now list.now.tok.now work.old tree.old c e }
    ensures { ScriptFunc list.now.text.now list.now.tok.now list.now.n work.old work.new stop sign c e tree.old tree.new result }
{
    let depth = c.depth;
    if too_deep(depth) {
        return Err(Missed::at(c));
    }
    let pos = c.pos as usize;
    if list.heads_at(work, pos, sign) {
        let g = headed(list, work, tree, deeper(next(c)), e, stop, pos);
        return Ok(g.at_depth(depth));
    }
    let s = term(list, work, tree, deeper(c.look(list.n)), e, stop, sign);
    back(s, depth)
}

// A term: a simple expression with its scripts.
#[cycle(readers)]
fn term(
    list: &List<'_>,
    work: &mut [u32],
    tree: &mut [u32],
    c: Cursor,
    e: usize,
    stop: bool,
    sign: bool,
) -> Step
    requires { Ready 6 list.now.n list.now.text.now list.now.tok.now work.old tree.old c e }
    ensures { Term list.now.text.now list.now.tok.now list.now.n work.old work.new stop sign c e tree.old tree.new result }
{
    let s = next_simple(list, work, tree, c, e + 6, stop, sign)?;
    let at = s.cur.pos as usize;
    // as next_script would find it, without the call
    if !list.marks_at(work, at) {
        put(tree, e, &[NODE_SIMPLE, 0, 0, 0, 0, 0]);
        return Ok(Part {
            cur: s.cur.look(list.n),
            ..s
        });
    }
    let m = next_script(list, work, tree, s.cur, s.end);
    put(tree, e, &[NODE_SIMPLE, 0, 0, m.script, 0, 0]);
    Ok(Part {
        cur: m.cur,
        end: m.end,
        ends: s.ends,
    })
}

// What the function or the sign at i heads.
#[cycle(readers)]
fn headed(
    list: &List<'_>,
    work: &mut [u32],
    tree: &mut [u32],
    c: Cursor,
    e: usize,
    stop: bool,
    i: usize,
) -> Part
    requires ready { Ready 18 list.now.n list.now.text.now list.now.tok.now work.old tree.old c e }
    requires i_lt_n { i < list.now.n }
    ensures { Headed list.now.text.now list.now.tok.now list.now.n work.old work.new i stop c e tree.old tree.new result }
{
    let func = list.is_at(work, i, FUNCTION);
    let m = if func {
        next_script(list, work, tree, c, e + 6)
    } else {
        Scripted {
            cur: c,
            end: e + 6,
            script: 0,
        }
    };
    let g = operand(list, work, tree, m.cur, m.end, head_stop(func, stop));
    node_before(list, work, tree, e, head_kind(func), i, m.script, g)
}

// One item: a scripted part, or a fraction of two.
#[cycle(readers)]
fn next_intermediate(
    list: &List<'_>,
    work: &mut [u32],
    tree: &mut [u32],
    c: Cursor,
    e: usize,
    stop: bool,
    sign: bool,
) -> Step
    requires { Ready 7 list.now.n list.now.text.now list.now.tok.now work.old tree.old c e }
    ensures { Intermediate list.now.text.now list.now.tok.now list.now.n work.old work.new stop sign c e tree.old tree.new result }
{
    let s = next_script_func(list, work, tree, c, e + 1, stop, sign)?;
    let at = s.cur.pos as usize;
    if list.is_at(work, at, FRAC) {
        put(tree, e, &[1]);
        Ok(operand(list, work, tree, next(s.cur), s.end, false))
    } else {
        put(tree, e, &[0]);
        Ok(Part {
            cur: s.cur.look(list.n),
            ..s
        })
    }
}

// The items from the cursor on, up to a bar behind an item like that at `until`, if an entry is there. `first0`: none stands before them.
#[cycle(readers)]
pub(crate) fn extend(
    list: &List<'_>,
    work: &mut [u32],
    tree: &mut [u32],
    c: Cursor,
    e: usize,
    until: usize,
    stop: bool,
    first0: bool,
    sign0: bool,
) -> Items
    requires { Ready 14 list.now.n list.now.text.now list.now.tok.now work.old tree.old c e }
    ensures { Intermediates list.now.text.now list.now.tok.now list.now.n work.old work.new until stop first0 sign0 c e tree.old tree.new result }
{
    let mut cur = c;
    let mut end = e;
    let mut count: u32 = 0;
    let mut first = first0;
    let mut sign = sign0;
    'items: loop {
        let pos = cur.pos as usize;
        let bar = choose(first, list.n, until);
        let now = &*work;
        if bar_at(list, now, bar, pos) {
            break 'items;
        }
        let g = put_space(list, now, tree, pos, end, first);
        if list.is_plain(now, cur.depth as usize, pos) {
            let p = plain_item(list, now, tree, cur, g.end);
            cur = p.cur;
            end = p.end;
            count += 1 + g.items;
            first = false;
            sign = !p.ends;
            continue 'items;
        }
        if list.is_over(now, cur.depth as usize, stop, pos) {
            cur = cur.look(list.n).look(list.n);
            break 'items;
        }
        match next_intermediate(list, work, tree, cur, g.end, stop, sign) {
            Ok(p) => {
                cur = p.cur;
                end = p.end;
                count += 1 + g.items;
                first = false;
                sign = !p.ends;
            }
            Err(d) => {
                cur = d.cur;
                break 'items;
            }
        }
    }
    Items {
        cur,
        end,
        count,
        sign,
    }
}

// The cells behind a row's bracket, up to its closing bracket.
#[cycle(readers)]
fn row_cells(list: &List<'_>, work: &mut [u32], tree: &mut [u32], c: Cursor, e: usize) -> Cells
    requires { Ready 20 list.now.n list.now.text.now list.now.tok.now work.old tree.old c e }
    ensures { RowCells list.now.text.now list.now.tok.now list.now.n work.old work.new c e tree.old tree.new result }
{
    let mut cur = c;
    let mut end = e;
    let mut count: usize = 0;
    let close = 'cells: loop {
        let at = end;
        let run = extend(list, work, tree, cur, at + 6, list.n, true, true, true);
        let p = run.cur.pos as usize;
        end = run.end;
        let size = (end - at - 6) as u32;
        put(tree, at, &[NODE_CELL, 0, 0, run.count, size, 0]);
        count += 1;
        cur = over(run.cur, list.n);
        if !list.is_at(work, p, SEP) {
            if list.is_at(work, p, CLOSE_BRACKET) {
                break 'cells Some(p);
            }
            break 'cells None;
        }
    };
    Cells {
        cur,
        end,
        count,
        close,
    }
}

// A matrix row; a token that opens none is taken too.
#[cycle(readers)]
fn next_row(list: &List<'_>, work: &mut [u32], tree: &mut [u32], c: Cursor, e: usize) -> Cells
    requires { Ready 0 list.now.n list.now.text.now list.now.tok.now work.old tree.old c e }
    ensures { MatrixRow list.now.text.now list.now.tok.now list.now.n work.old work.new c e tree.old tree.new result }
{
    let pos = c.pos as usize;
    if list.is_at(work, pos, OPEN_BRACKET) {
        row_cells(list, work, tree, next(c), e)
    } else {
        Cells {
            cur: over(c, list.n),
            end: e,
            count: 0,
            close: None,
        }
    }
}

// The rows behind the first one, which opens at `left` and is of `cols` cells between round brackets, or else square ones.
#[cycle(readers)]
fn more_rows(
    list: &List<'_>,
    work: &mut [u32],
    tree: &mut [u32],
    c: Cursor,
    e: usize,
    cols: usize,
    left: usize,
    round: bool,
) -> Rows
    requires ready { Ready 0 list.now.n list.now.text.now list.now.tok.now work.old tree.old c e }
    requires cols_le_pos { cols ≤ c.pos }
    ensures { MoreRows list.now.text.now list.now.tok.now list.now.n work.old work.new cols left round c e tree.old tree.new result }
{
    let mut cur = c;
    let mut end = e;
    let mut cells = cols;
    let why = 'rows: loop {
        let p = cur.pos as usize;
        if !list.is_at(work, p, SEP) {
            break 'rows Why::Done;
        }
        let row = next_row(list, work, tree, next(cur), end);
        cur = row.cur;
        end = row.end;
        let Some(q) = row.close else {
            break 'rows Why::Broken;
        };
        cells += row.count;
        let differs = row.count != cols;
        if differs {
            break 'rows Why::Differs;
        }
        if !is_pair(list, work, round, p + 1, q) {
            break 'rows Why::Differs;
        }
    };
    Rows {
        cur,
        end,
        cells,
        cols,
        left,
        why,
    }
}

// The rows of a matrix, up to its closing bracket.
#[cycle(readers)]
fn next_rows(list: &List<'_>, work: &mut [u32], tree: &mut [u32], c: Cursor, e: usize) -> Rows
    requires { Ready 0 list.now.n list.now.text.now list.now.tok.now work.old tree.old c e }
    ensures { MatrixRows list.now.text.now list.now.tok.now list.now.n work.old work.new c e tree.old tree.new result }
{
    let left = c.pos as usize;
    let row = next_row(list, work, tree, c, e);
    let cur = row.cur;
    let end = row.end;
    let cols = row.count;
    let why = match row.close {
        None => Why::Broken,
        Some(right) => {
            let round = is_round(list, work, left);
            if is_pair(list, work, round, left, right) {
                return more_rows(list, work, tree, cur, end, cols, left, round);
            }
            Why::Differs
        }
    };
    Rows {
        cur,
        end,
        cells: cols,
        cols,
        left,
        why,
    }
}

// The matrix that the bracket at i opens, or nothing: a failed attempt is marked and given back.
#[cycle(readers)]
fn try_matrix(
    list: &List<'_>,
    work: &mut [u32],
    tree: &mut [u32],
    c: Cursor,
    e: usize,
    i: usize,
) -> Step
    requires ready { Ready 20 list.now.n list.now.text.now list.now.tok.now work.old tree.old c e }
    requires i_lt_n { i < list.now.n }
    ensures { TryMatrix list.now.text.now list.now.tok.now list.now.n work.old work.new i c e tree.old tree.new result }
{
    let old = &*work;
    if !could_be_matrix(list, old, i) {
        return Err(Missed::at(c));
    }
    if failed_at(old, i, MATRIX_MARK) {
        return Err(Missed::at(c));
    }
    let rows = next_rows(list, work, tree, c, e + 8);
    let cur = rows.cur;
    if let Why::Done = rows.why {
        let p = cur.pos as usize;
        let split = split_column_lines(list.text, tree, e + 8, rows.end, rows.cells, rows.cols);
        let now = &*work;
        if makes_matrix(list, now, i, rows.left, split.cells, p) {
            put_matrix(list, now, tree, e, i, p, split);
            return Ok(Part {
                cur: next(cur),
                end: split.end,
                ends: true,
            });
        }
    }
    mark_failed(work, i, MATRIX_MARK);
    Err(Missed::at(cur.rewind(c.pos)))
}

// The group that the bracket at i opens.
#[cycle(readers)]
fn open_group(
    list: &List<'_>,
    work: &mut [u32],
    tree: &mut [u32],
    c: Cursor,
    e: usize,
    i: usize,
) -> Part
    requires ready { Ready 20 list.now.n list.now.text.now list.now.tok.now work.old tree.old c e }
    requires i_lt_n { i < list.now.n }
    ensures { OpenGroup list.now.text.now list.now.tok.now list.now.n work.old work.new i c e tree.old tree.new result }
{
    let run = extend(list, work, tree, c, e + 6, list.n, false, true, true);
    let cur = run.cur;
    let at = cur.pos as usize;
    let shut = list.is_at(work, at, CLOSE_BRACKET);
    put_group(list, work, tree, e, i, choose(shut, at, list.n), run.count);
    Part {
        cur: past(cur, list.n, shut),
        end: run.end,
        ends: true,
    }
}

// The matrix or the group that the bracket of kind k at i opens, or a bar alone.
#[cycle(readers)]
fn bracket(
    list: &List<'_>,
    work: &mut [u32],
    tree: &mut [u32],
    c: Cursor,
    e: usize,
    stop: bool,
    i: usize,
    k: u32,
) -> Part
    requires ready { Ready 20 list.now.n list.now.text.now list.now.tok.now work.old tree.old c e }
    requires i_lt_n { i < list.now.n }
    ensures { Bracket list.now.text.now list.now.tok.now list.now.n work.old work.new i k stop c e tree.old tree.new result }
{
    match try_matrix(list, work, tree, c, e, i) {
        Ok(g) => g,
        Err(d) => {
            if k == OPEN_BRACKET {
                open_group(list, work, tree, d.cur, e, i)
            } else {
                bars(list, work, tree, d.cur, e, stop, i)
            }
        }
    }
}

// The group between the bar at i and another like it, or the bar alone: a failed attempt is marked and given back.
#[cycle(readers)]
fn bars(
    list: &List<'_>,
    work: &mut [u32],
    tree: &mut [u32],
    c: Cursor,
    e: usize,
    stop: bool,
    i: usize,
) -> Part
    requires ready { Ready 20 list.now.n list.now.text.now list.now.tok.now work.old tree.old c e }
    requires i_lt_n { i < list.now.n }
    ensures { Bars list.now.text.now list.now.tok.now list.now.n work.old work.new i stop c e tree.old tree.new result }
{
    let from = c.pos;
    let mark = open_mark(stop);
    if failed_at(work, i, mark) {
        return leaf(list, work, tree, c, e, i, OPEN_CLOSE_BRACKET);
    }
    let run = extend(list, work, tree, c, e + 6, i, stop, true, true);
    let cur = run.cur;
    let at = cur.pos as usize;
    let count = run.count;
    if count == 0 {
        leaf(list, work, tree, cur, e, i, OPEN_CLOSE_BRACKET)
    } else if bar_at(list, work, i, at) {
        put_group(list, work, tree, e, i, at, count);
        Part {
            cur: next(cur),
            end: run.end,
            ends: true,
        }
    } else {
        mark_failed(work, i, mark);
        let given_back = cur.rewind(from);
        leaf(list, work, tree, given_back, e, i, OPEN_CLOSE_BRACKET)
    }
}

// The node of kind `kind` that the entry i prefixes, with one argument.
#[cycle(readers)]
fn unary(
    list: &List<'_>,
    work: &mut [u32],
    tree: &mut [u32],
    c: Cursor,
    e: usize,
    stop: bool,
    i: usize,
    kind: u32,
) -> Part
    requires ready { Ready 12 list.now.n list.now.text.now list.now.tok.now work.old tree.old c e }
    requires i_lt_n { i < list.now.n }
    requires kind_value { prefix_kind (prefix_of kind) ≡ kind }
    ensures { Unary list.now.text.now list.now.tok.now list.now.n work.old work.new i kind stop c e tree.old tree.new result }
{
    let g = arg(list, work, tree, c, e + 6, stop);
    node_before(list, work, tree, e, kind, i, 0, g)
}

// The binary operation at i, with its two arguments.
#[cycle(readers)]
fn binary(
    list: &List<'_>,
    work: &mut [u32],
    tree: &mut [u32],
    c: Cursor,
    e: usize,
    i: usize,
) -> Part
    requires ready { Ready 18 list.now.n list.now.text.now list.now.tok.now work.old tree.old c e }
    requires i_lt_n { i < list.now.n }
    ensures { Binary list.now.text.now list.now.tok.now list.now.n work.old work.new i c e tree.old tree.new result }
{
    let g = arg(list, work, tree, c, e + 6, false);
    let h = arg(list, work, tree, g.cur, g.end, false);
    node_before(list, work, tree, e, NODE_BINARY, i, 0, h)
}

// What the entry i of another kind k, just taken, begins: an operation or a leaf.
#[cycle(readers)]
fn other(
    list: &List<'_>,
    work: &mut [u32],
    tree: &mut [u32],
    c: Cursor,
    e: usize,
    stop: bool,
    sign: bool,
    i: usize,
    k: u32,
) -> Part
    requires ready { Ready 32 list.now.n list.now.text.now list.now.tok.now work.old tree.old c e }
    requires i_value { test_at list.now.tok.now work.old list.now.n (begins_kind stop) i ≡ true }
    requires i_lt_n { i < list.now.n }
    requires k_value { k ≡ kind_of list.now.tok.now work.old i }
    requires k_value_2 { opening k ≡ false }
    ensures { Begun list.now.text.now list.now.tok.now list.now.n work.old work.new i stop sign c e tree.old tree.new result }
{
    if k == BINARY {
        return binary(list, work, tree, c, e, i);
    }
    match prefix_kind(k, sign) {
        Some(kind) => unary(list, work, tree, c, e, prefix_stop(k, stop), i, kind),
        None => leaf(list, work, tree, c, e, i, k),
    }
}

// What the entry i, just taken, begins.
#[cycle(readers)]
fn begun(
    list: &List<'_>,
    work: &mut [u32],
    tree: &mut [u32],
    c: Cursor,
    e: usize,
    stop: bool,
    sign: bool,
    i: usize,
) -> Part
    requires ready { Ready 32 list.now.n list.now.text.now list.now.tok.now work.old tree.old c e }
    requires i_value { test_at list.now.tok.now work.old list.now.n (begins_kind stop) i ≡ true }
    requires i_lt_n { i < list.now.n }
    ensures { Begun list.now.text.now list.now.tok.now list.now.n work.old work.new i stop sign c e tree.old tree.new result }
{
    let k = kind_at(list.tok, work, i);
    if opens(k) {
        bracket(list, work, tree, c, e, stop, i, k)
    } else {
        other(list, work, tree, c, e, stop, sign, i, k)
    }
}

// A simple expression. `sign`: a sign here prefixes what follows it.
#[cycle(readers)]
fn next_simple(
    list: &List<'_>,
    work: &mut [u32],
    tree: &mut [u32],
    c: Cursor,
    e: usize,
    stop: bool,
    sign: bool,
) -> Step
    requires { Ready 0 list.now.n list.now.text.now list.now.tok.now work.old tree.old c e }
    ensures { Simple list.now.text.now list.now.tok.now list.now.n work.old work.new stop sign c e tree.old tree.new result }
{
    let depth = c.depth;
    if too_deep(depth) {
        return Err(Missed::at(c));
    }
    let pos = c.pos as usize;
    if list.begins_at(work, pos, stop) {
        let g = begun(list, work, tree, deeper(next(c)), e, stop, sign, pos);
        return Ok(g.at_depth(depth));
    }
    Err(Missed::at(c.look(list.n)))
}
