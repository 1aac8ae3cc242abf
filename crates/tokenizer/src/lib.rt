// The calls on a text: its tokens listed, listed if they are few, and counted.
#![tactic(auto)]

ghost use Rattle.std.specs.Prelude.{◌≡◌, length};
ghost use Rattle.refusals.specs.Refusal.{numbered};
ghost use Rattle.lexer.specs.Listing.{listed_reads};
ghost use Rattle.tokenizer.specs.Waiting.{all_listed, Waiting};
ghost use Rattle.tokenizer.specs.Call.{answer_of, tokenized, tokenized_under, count_of, counted};

use lexer::{Listing, list_reads};
use refusals::refusal::Refusal;

// How many tokens the text has, and how many of them are other than Space; or that there are too many others, and how many.
#[derive(Clone, Copy, PartialEq, Eq)]
pub enum TokenizedUnder {
    Tokens { all: usize, others: usize },
    Many { others: usize },
}

// All tokens of a text, for which the table has words.
fn list_all(text: &[u8], table: &mut [u32]) -> Result<TokenizedUnder, Refusal>
    ensures { (numbered result, table.new) ≡ all_listed (listed_reads text.now 0 (length text.now) table.old) }
{
    let Listing { all, others, .. } = list_reads(text, 0, text.len(), table)?;
    Ok(TokenizedUnder::Tokens { all, others })
}

// The tokens of an accepted text, which are counted and of which the first 160 wait in the list.
fn take_list(
    text: &[u8],
    table: &mut [u32],
    room: usize,
    list: &[u32; 480],
    all: usize,
    others: usize,
) -> Result<TokenizedUnder, Refusal>
    requires { Waiting text.now list.now all others }
    ensures { (numbered result, table.new) ≡ tokenized_under text.now table.old room }
{
    if table.len() < 3 * all {
        return Err(Refusal::ShortTable);
    }
    if room <= others {
        return Ok(TokenizedUnder::Many { others });
    }
    if all <= 160 {
        table[..3 * all].copy_from_slice(&list[..3 * all]);
        return Ok(TokenizedUnder::Tokens { all, others });
    }
    list_all(text, table)
}

// Like tokenize, but only counts a text that has `room` or more tokens other than Space. Nothing is written before all refusals
// are decided: where the table has three words for each byte there are none, else up to 160 tokens wait in a list.
pub fn tokenize_under(
    text: &[u8],
    table: &mut [u32],
    room: usize,
) -> Result<TokenizedUnder, Refusal>
    ensures { (numbered result, table.new) ≡ tokenized_under text.now table.old room }
{
    let len = text.len();
    if len <= table.len() / 3 && len < room {
        return list_all(text, table);
    }
    let mut list = [0u32; 480];
    let Listing { all, others, .. } = list_reads(text, 0, len, &mut list)?;
    take_list(text, table, room, &list, all, others)
}

// Writes the text's token list into the first words of the table and answers how many tokens there are; or refuses the text by 1, 2 or
// 7 and changes nothing.
pub fn tokenize(text: &[u8], table: &mut [u32]) -> Result<usize, Refusal>
    ensures { (answer_of result, table.new) ≡ tokenized text.now table.old }
{
    match tokenize_under(text, table, 4097)? {
        TokenizedUnder::Tokens { all, .. } => Ok(all),
        // never: there are at most 4,096 tokens
        TokenizedUnder::Many { .. } => Err(Refusal::ShortTable),
    }
}

// How many tokens the text has, and how many of them are other than Space.
#[derive(Clone, Copy, PartialEq, Eq)]
pub struct Counted {
    pub all: usize,
    pub others: usize,
}

// Counts the text's tokens, or refuses it by 1 or 2.
pub fn count_tokens(text: &[u8]) -> Result<Counted, Refusal>
    ensures { count_of result ≡ counted text.now }
{
    let Listing { all, others, .. } = list_reads(text, 0, text.len(), &mut [])?;
    Ok(Counted { all, others })
}
