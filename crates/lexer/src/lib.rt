// The reading of tokens: the spelling table, the lookup, the rules, and the reads of a text one after the other.
#![tactic(auto)]

mod found;
mod list;
pub mod prefix_map;
mod row;
mod rules;
mod spellings;
mod table;

ghost use Rattle.std.specs.Prelude.{◌≡◌};
ghost use Rattle.refusals.specs.Refusal.{numbered};
ghost use Rattle.lexer.specs.Listing.{listed_reads};

use list::list_from;
use refusals::refusal::Refusal;
use refusals::text::check_text;

// How many tokens are listed, how many of them are other than Space, the place behind them, and the row of the spelling table by which
// the last read's first token was read: none where it was by no spelling, or nothing is read.
#[derive(Clone, Copy, PartialEq, Eq)]
pub struct Listing {
    pub all: usize,
    pub others: usize,
    pub next: usize,
    pub row: Option<usize>,
}

// Reads from a place on until `stop` or the text's end is reached: counts the tokens, and writes the leading ones into the table as
// far as it has three words for each; or refuses the text by 1 or 2, or a place `from` past the text by 5, and changes nothing.
pub fn list_reads(
    text: &[u8],
    from: usize,
    stop: usize,
    table: &mut [u32],
) -> Result<Listing, Refusal>
    ensures { (numbered result, table.new) ≡ listed_reads text.now from stop table.old }
{
    check_text(text)?;
    if text.len() < from {
        return Err(Refusal::SpanPastText);
    }
    Ok(list_from(text, from, stop.min(text.len()), table))
}
