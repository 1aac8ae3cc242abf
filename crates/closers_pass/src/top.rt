// The whole reading, without a tree.
ghost use Rattle.std.specs.Prelude.{◌||◌, ◌≡◌, ◌≤◌, length};
ghost use Rattle.refusals.specs.Refusal.{numbered};
ghost use Rattle.records.specs.Record.{record_words};
ghost use Rattle.brackets.specs.Brackets.{has_attempts};
ghost use Rattle.closers_pass.specs.Top.{Paired};
ghost use Rattle.closers_pass.specs.Call.{paired_list};

use crate::cursor::next;
use crate::readers::extend;
use brackets::has_attempts;
use entries::prepare;
use lookahead::depth::MOST_WRAPS;
use lookahead::list::List;
use reading_cursor::Cursor;
use records::RECORD_WORDS;
use refusals::refusal::Refusal;
use tokens::kinds::CLOSE_BRACKET;

// What the pass over a token list answers.
#[derive(Clone, Copy, PartialEq, Eq)]
pub enum Pass {
    // How many entries there are, and the takes of the whole reading; its marks and closers stand in the records.
    Read { entries: usize, takes: u32 },
    // So many entries, at none of which an attempt can be made: the records are as `prepare` makes them.
    Plain(usize),
}

// The takes of the whole reading, round 2^32; its marks and closers are left in the records.
fn read_all(list: &List<'_>, work: &mut [u32]) -> u32
    requires n_bound { list.now.n ≤ 4096 }
    requires n_in_bounds { record_words list.now.n ≤ length work.old }
    ensures { Paired list.now.text.now list.now.tok.now list.now.n work.old work.new result }
{
    let mut cur = Cursor {
        pos: 0,
        depth: 0,
        takes: 0,
    };
    let mut first = true;
    let mut sign = true;
    let mut wraps: usize = 0;
    'all: loop {
        let run = extend(list, work, cur, list.n, false, first, sign);
        let rc = run.cur;
        let at = rc.pos as usize;
        first = false;
        sign = run.sign;
        if !list.is_at(work, at, CLOSE_BRACKET) {
            cur = rc.look(list.n);
            break 'all;
        }
        cur = next(rc);
        if wraps < MOST_WRAPS {
            sign = false;
            wraps += 1;
        }
    }
    cur.takes
}

// Whether the pass is to go over the records: if it is asked for, or an attempt may be made.
fn is_wanted(list: &List<'_>, work: &[u32], always: bool) -> bool
    ensures { result ≡ (always || has_attempts list.now.text.now list.now.tok.now work.now list.now.n) }
{
    always || has_attempts(list, work)
}

// The records of a list of `count` tokens, and the pass over them: `always`, or where it has something to decide.
// kept: the table with a count beside it, as the C interface lends it
pub fn pair_list(
    text: &[u8],
    table: &[u32],
    count: usize,
    always: bool,
    work: &mut [u32],
) -> Result<Pass, Refusal>
    ensures { (numbered result, work.new) ≡ paired_list text.now table.now count always work.old }
{
    let n = prepare(table, count, work)?;
    let list = List {
        text,
        tok: table,
        n,
    };
    if !is_wanted(&list, work, always) {
        return Ok(Pass::Plain(n));
    }
    let takes = read_all(&list, &mut work[..RECORD_WORDS * n]);
    Ok(Pass::Read { entries: n, takes })
}
