// The whole reading: the items, and the groups of closing brackets that nothing opened.
ghost use Rattle.std.specs.Prelude.{◌≡◌, ◌++◌, ◌+◌, ◌*◌, ◌≤◌, length, take, replicate};
ghost use Rattle.std.proofs.lemmas.List.Edits.{sets};
ghost use Rattle.records.specs.Record.{sep_of, start_of, len_of, with_close, with_sep};
ghost use Rattle.parse.specs.Top.{Noted, wrap_words, wraps_words, TopReady, Topped, ReadsEach};
ghost use Rattle.reading_words.specs.Entry.{Placed};

use crate::cursor::next;
use crate::readers::extend;
use crate::write::put;
use buffer::{clear_from, shift};
use fields::{after_close, sep_of};
use lookahead::depth::MOST_WRAPS;
use lookahead::list::List;
use reading_cursor::Cursor;
use records::record::{len_at, start_at};
use stores::{set_close, set_sep};
use tokens::kinds::CLOSE_BRACKET;
use tree::kinds::{NODE_GROUP, NODE_SIMPLE};

#[derive(Clone, Copy)]
pub(crate) struct Reading {
    pub takes: u32,
    pub end: usize,
    pub items: u32,
}

// Items, and the unmatched closing brackets so far: how many, and the last.
#[derive(Clone, Copy)]
pub(crate) struct Wrapped {
    pub cur: Cursor,
    pub end: usize,
    pub count: u32,
    pub wraps: usize,
    pub last: usize,
}

// Notes the wrap of `count` items that the closing bracket at i makes; the one before it is `last`.
fn note_wrap(work: &mut [u32], i: usize, last: usize, count: u32)
    requires { last ≤ 4096 }
    ensures { work.new ≡ with_sep (with_close work.old i last) i count }
{
    set_close(work, i, last as u32);
    set_sep(work, i, count);
}

// All items; a closing bracket that nothing opened closes all before it.
fn read_items(list: &List<'_>, work: &mut [u32], tree: &mut [u32]) -> Wrapped
    requires { TopReady list.now.n list.now.text.now list.now.tok.now work.old tree.old }
    ensures { Topped list.now.text.now list.now.tok.now list.now.n work.old work.new tree.new result }
{
    let mut cur = Cursor {
        pos: 0,
        depth: 0,
        takes: 0,
    };
    let mut end = 0;
    let mut count: u32 = 0;
    let mut first = true;
    let mut sign = true;
    let mut wraps: usize = 0;
    let mut last: usize = 0;
    'all: loop {
        let run = extend(list, work, tree, cur, end, list.n, false, first, sign);
        let at = run.cur.pos as usize;
        end = run.end;
        count += run.count;
        first = false;
        sign = run.sign;
        if list.is_at(work, at, CLOSE_BRACKET) {
            cur = next(run.cur);
            if wraps < MOST_WRAPS {
                note_wrap(work, at, last, count);
                last = at;
                count = 1;
                sign = false;
                wraps += 1;
            }
        } else {
            cur = run.cur.look(list.n);
            break 'all;
        }
    }
    Wrapped {
        cur,
        end,
        count,
        wraps,
        last,
    }
}

// The header of the wrap that the closing bracket at i makes, at `at`.
fn put_wrap(tok: &[u32], work: &[u32], tree: &mut [u32], at: usize, i: usize)
    requires placed { Placed tok.now work.now i }
    requires at_in_bounds { at + 13 ≤ length tree.old }
    ensures { tree.new ≡ sets tree.old at (wrap_words (sep_of work.now i) (start_of tok.now work.now i) (len_of tok.now work.now i)) }
{
    let count = sep_of(work, i);
    let start = start_at(tok, work, i);
    let len = len_at(tok, work, i);
    put(
        tree,
        at,
        &[
            0,
            NODE_SIMPLE,
            0,
            0,
            0,
            0,
            0,
            NODE_GROUP,
            0,
            0,
            count,
            start,
            len,
        ],
    );
}

// The headers of the wraps, the last first.
fn put_wraps(list: &List<'_>, work: &[u32], tree: &mut [u32], wraps: usize, last: usize)
    requires noted { Noted list.now.n list.now.tok.now work.now wraps last }
    requires wraps_in_bounds { 13 * wraps ≤ length tree.old }
    ensures { (p : Noted list.now.n list.now.tok.now work.now wraps last) → tree.new ≡ sets tree.old 0 (wraps_words list.now.tok.now work.now p.list) }
{
    let mut i = last;
    for k in 0..wraps {
        put_wrap(list.tok, work, tree, 13 * k, i);
        i = after_close(work, i);
    }
}

// The wraps around the first `end` words.
fn wrap_items(
    list: &List<'_>,
    work: &[u32],
    tree: &mut [u32],
    end: usize,
    wraps: usize,
    last: usize,
)
    requires noted { Noted list.now.n list.now.tok.now work.now wraps last }
    requires wraps_bound { wraps ≤ 256 }
    requires wraps_in_bounds { end + 13 * wraps ≤ length tree.old }
    ensures { (p : Noted list.now.n list.now.tok.now work.now wraps last) → take (end + 13 * wraps) tree.new ≡ wraps_words list.now.tok.now work.now p.list ++ take end tree.old }
{
    if wraps == 0 {
        return;
    }
    shift(tree, end, 13 * wraps);
    put_wraps(list, work, tree, wraps, last);
}

// The second part: the tree's words, read from the marks in the records, zeros behind them, and the work words all zero.
pub(crate) fn build_tree(
    text: &[u8],
    tok: &[u32],
    n: usize,
    work: &mut [u32],
    tree: &mut [u32],
) -> Reading
    requires { TopReady n text.now tok.now work.old tree.old }
    ensures reads { ReadsEach n text.now tok.now work.old (length tree.old) tree.new result }
    ensures work_after { work.new ≡ replicate (length work.old) 0 }
{
    let list = List { text, tok, n };
    let run = read_items(&list, work, tree);
    wrap_items(&list, work, tree, run.end, run.wraps, run.last);
    let end = run.end + 13 * run.wraps;
    clear_from(tree, end);
    clear_from(work, 0);
    Reading {
        takes: run.cur.takes,
        end,
        items: run.count,
    }
}
