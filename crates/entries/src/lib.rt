// Parser::new of parse.rs over lent words: a record for each token other than Space.
#![tactic(auto)]

ghost use Rattle.std.specs.Prelude.{◌≡◌, List, ℕ, ◌+◌, ◌*◌, ◌≤◌, ltb, length};
ghost use Rattle.tokens.specs.Table.{count_others};
ghost use Rattle.refusals.specs.Refusal.{numbered};
ghost use Rattle.records.specs.Record.{record_words, after_close};
ghost use Rattle.entries.specs.Prepared.{all_tokens, prepared};
ghost use Rattle.entries.specs.Open.{Chain, Opened, clear_all, Link, Filled};

use fields::after_close;
use records::RECORD_WORDS;
use refusals::refusal::Refusal;
use stores::{put_record, set_close, set_sep};
use tokens::kinds::{CLOSE_BRACKET, OPEN_BRACKET, SEP, SPACE};

// How many entries there are, and the number behind the last bracket that is left open, or 0.
// kept: 0 for none, not an Option, since so the close fields of the open brackets lead from one to the next
#[derive(Clone, Copy)]
struct Matched {
    entries: usize,
    last: usize,
}

// How many tokens are other than Space.
fn count_entries(tokens: &[u32]) -> usize
    ensures { result ≡ count_others (all_tokens tokens.now) }
{
    let mut n = 0;
    for i in 0..tokens.len() / 3 {
        if tokens[3 * i + 2] < SPACE {
            n += 1;
        }
    }
    n
}

// Whether so many work words are too few. Where there is a record for each token, nothing is counted.
fn is_short(tokens: &[u32], words: usize) -> bool
    ensures { result ≡ ltb words (record_words (count_others (all_tokens tokens.now) + 1)) }
{
    if tokens.len() / 3 < words / RECORD_WORDS {
        return false;
    }
    words < RECORD_WORDS * (count_entries(tokens) + 1)
}

// Matches the entry i with the open brackets before it. Each open one's close field leads to the one around it.
fn link(work: &mut [u32], i: usize, kind: u32, top: usize) -> usize
    requires i_bound { i ≤ 4096 }
    requires top_le_i { top ≤ i }
    ensures { Link i kind top work.old work.new result }
{
    if kind == OPEN_BRACKET {
        set_close(work, i, top as u32);
        return i + 1;
    }
    let Some(bracket) = top.checked_sub(1) else {
        return top;
    };
    match kind {
        CLOSE_BRACKET => {
            let outer = after_close(work, bracket);
            set_close(work, bracket, (i + 1) as u32);
            outer
        }
        SEP => {
            set_sep(work, bracket, 1);
            top
        }
        _ => top,
    }
}

// The records of the entries, but for the brackets that are left open.
fn fill(tokens: &[u32], work: &mut [u32]) -> Matched
    requires tokens_bound { length tokens.now ≤ 3 * 4096 }
    requires records_in_bounds { record_words (count_others (all_tokens tokens.now)) ≤ length work.old }
    ensures filled { Filled (all_tokens tokens.now) work.old work.new result.last }
    ensures entries_value { result.entries ≡ count_others (all_tokens tokens.now) }
{
    let mut n = 0;
    let mut top = 0;
    for i in 0..tokens.len() / 3 {
        let kind = tokens[3 * i + 2];
        if kind < SPACE {
            put_record(work, n, i as u32);
            top = link(work, n, kind, top);
            n += 1;
        }
    }
    Matched {
        entries: n,
        last: top,
    }
}

// Clears the close fields of the brackets that nothing closes.
fn clear_open(work: &mut [u32], last: usize)
    requires { Opened work.old last }
    ensures { (st : List ℕ) → Chain (after_close work.old) last st last → work.new ≡ clear_all st work.old }
{
    let mut top = last;
    while let Some(bracket) = top.checked_sub(1) {
        top = after_close(work, bracket);
        set_close(work, bracket, 0);
    }
}

// The records of a list of `count` tokens, and how many they are.
// kept: the table with a count beside it, as the C interface lends it
pub fn prepare(table: &[u32], count: usize, work: &mut [u32]) -> Result<usize, Refusal>
    ensures { (numbered result, work.new) ≡ prepared table.now count work.old }
{
    if 4096 < count || table.len() < 3 * count {
        return Err(Refusal::ShortList);
    }
    let tokens = &table[..3 * count];
    if is_short(tokens, work.len()) {
        return Err(Refusal::ShortWork);
    }
    let done = fill(tokens, work);
    clear_open(work, done.last);
    Ok(done.entries)
}
