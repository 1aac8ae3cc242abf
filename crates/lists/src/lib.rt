// Refusals 1 to 6: whether a token list that a caller made is turned back.
#![tactic(auto)]

ghost use Rattle.std.specs.Prelude.{◌≡◌, false, ◌*◌, ◌≤◌, length};
ghost use Rattle.tokens.specs.Refusals.{tokens_refusal};
ghost use Rattle.tokens.specs.Table.{token_list};
ghost use Rattle.refusals.specs.Refusal.{numbered};
ghost use Rattle.lists.specs.Checks.{answer, checked};

use refusals::refusal::Refusal;
use refusals::text::check_text;
use tokens::kinds::SPACE;

const MOST_TOKENS: usize = 4096;

// Refusals 4, 5 and 6, over a text of `size` bytes; or how many tokens are other than Space.
fn check_tokens(size: usize, table: &[u32], count: usize) -> Result<usize, Refusal>
    requires count_bound { count ≤ 4096 }
    requires count_in_bounds { 3 * count ≤ length table.now }
    ensures { numbered result ≡ answer (tokens_refusal size false count table.now) (token_list count table.now) }
{
    let mut others = 0;
    let mut after = false;
    for i in 0..count {
        let start = table[3 * i];
        let len = table[3 * i + 1];
        let kind = table[3 * i + 2];
        // in 64 bits the sum does not wrap
        let end = start as usize + len as usize;
        if SPACE < kind {
            return Err(Refusal::UnknownKind);
        }
        if size < end {
            return Err(Refusal::SpanPastText);
        }
        if kind == SPACE {
            if after {
                return Err(Refusal::SpaceAfterSpace);
            }
            after = 0 < len;
        } else {
            after = false;
            others += 1;
        }
    }
    Ok(others)
}

// A list of `count` tokens, three words each, over a text: how many of them are other than Space.
// kept: the table with a count beside it, as the C interface lends it
pub fn check_list(text: &[u8], table: &[u32], count: usize) -> Result<usize, Refusal>
    ensures { numbered result ≡ checked text.now table.now count }
{
    check_text(text)?;
    if MOST_TOKENS < count || table.len() < 3 * count {
        return Err(Refusal::ShortList);
    }
    check_tokens(text.len(), table, count)
}
