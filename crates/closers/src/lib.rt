// The bracket pass as calls: for each token other than Space the place of its closer, of a token list and of a text.
#![tactic(auto)]

ghost use Rattle.std.specs.Prelude.{◌≡◌, ◌+◌, ◌^◌, ◌≤◌, ◌<◌, length};
ghost use Rattle.std.proofs.Math.Option.{none};
ghost use Rattle.tokens.specs.Refusals.{list_refusal};
ghost use Rattle.tokens.specs.Table.{token_list, count_others};
ghost use Rattle.records.specs.Record.{record_words};
ghost use Rattle.closers.specs.Call.{answer_of, text_answer_of, closers_after, closed_tokens, closed_text};

use closers_notes::put_closers;
use closers_pass::top::{Pass, pair_list};
use lists::check_list;
use records::RECORD_WORDS;
use refusals::refusal::Refusal;
use tokenizer::{TokenizedUnder, tokenize_under};

// What the pass over a text answers: tokens with Space, and those other than Space; so many closers are written.
#[derive(Clone, Copy, PartialEq, Eq)]
pub struct PairedText {
    pub tokens: usize,
    pub others: usize,
}

// A short list has so many tokens other than Space at most, and any list so many.
const SMALL: usize = 128;

const MOST: usize = 4096;

// Work words for a short list, and for any.
const SMALL_WORK: usize = RECORD_WORDS * (SMALL + 1);

const WORK: usize = RECORD_WORDS * (MOST + 1);

// The closers of an accepted list, with so many work words, which it clears.
fn pair_in<const WORDS: usize>(text: &[u8], table: &[u32], count: usize, out: &mut [u32])
    requires table_value { list_refusal text.now count table.now ≡ none }
    requires words_bound { WORDS < 2 ^ 32 }
    requires table_bound { record_words (count_others (token_list count table.now) + 1) ≤ WORDS }
    requires table_in_bounds { count_others (token_list count table.now) ≤ length out.old }
    ensures { out.new ≡ closers_after text.now (token_list count table.now) out.old }
{
    let mut work = [0u32; WORDS];
    match pair_list(text, table, count, true, &mut work) {
        Ok(Pass::Read { entries, takes: _ }) => put_closers(&work, entries as u32, out),
        // never: the list is accepted and has its words, and the pass is asked for
        Ok(Pass::Plain(_)) => {}
        Err(_) => {}
    }
}

// The same with few work words for a short list, so that it clears little.
fn pair_sized(text: &[u8], table: &[u32], count: usize, others: usize, out: &mut [u32])
    requires table_value { list_refusal text.now count table.now ≡ none }
    requires others_value { others ≡ count_others (token_list count table.now) }
    requires others_in_bounds { others ≤ length out.old }
    ensures { out.new ≡ closers_after text.now (token_list count table.now) out.old }
{
    if others <= SMALL {
        pair_in::<SMALL_WORK>(text, table, count, out);
    } else {
        pair_in::<WORK>(text, table, count, out);
    }
}

// The closers of a list of `count` tokens over a text, and how many there are: its tokens other than Space; or a refusal by 1 to 6 or 8.
// kept: the table with a count beside it, as the C interface lends it
pub fn closers(text: &[u8], table: &[u32], count: usize, out: &mut [u32]) -> Result<usize, Refusal>
    ensures { (answer_of result, out.new) ≡ closed_tokens text.now table.now count out.old }
{
    let others = check_list(text, table, count)?;
    if out.len() < others {
        return Err(Refusal::ShortWork);
    }
    pair_sized(text, table, count, others, out);
    Ok(others)
}

// The tokens of a text and their closers, or a refusal by 1, 2, 7 or 8.
pub fn closers_text(text: &[u8], table: &mut [u32], out: &mut [u32]) -> Result<PairedText, Refusal>
    ensures { (text_answer_of result, table.new, out.new)
        ≡ closed_text text.now table.old out.old }
{
    match tokenize_under(text, table, out.len() + 1)? {
        TokenizedUnder::Many { others: _ } => Err(Refusal::ShortWork),
        TokenizedUnder::Tokens { all, others } => {
            pair_sized(text, table, all, others, out);
            Ok(PairedText {
                tokens: all,
                others,
            })
        }
    }
}
