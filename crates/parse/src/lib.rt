// The parser of asciimath-parser over a token list: parse.rs, and its calls on a text and on a token list.
#![tactic(auto)]

mod cursor;
mod plain;
mod readers;
mod tests;
mod top;
mod write;

ghost use Rattle.std.specs.Prelude.{◌≡◌, [], ◌∷◌, eqb, length};
ghost use Rattle.std.proofs.Math.Option.{none};
ghost use Rattle.tokens.specs.Refusals.{bit, list_refusal, room_refusal};
ghost use Rattle.tokens.specs.Table.{token_list, count_others};
ghost use Rattle.parse.specs.Call.{answer_of, list_values, list_answer_of, parsed_text, parsed_tokens};

use closers_pass::top::{Pass, pair_list};
use lists::check_list;
use refusals::refusal::Refusal;
use room::{check_room, lacking, room_for};
use tokenizer::{TokenizedUnder, tokenize_under};
use top::build_tree;

// What the reading of a text answers: tokens with Space, takes, the root's items, and whether it has none.
#[derive(Clone, Copy, PartialEq, Eq)]
pub struct Parsed {
    pub tokens: usize,
    pub takes: u64,
    pub items: u32,
    pub blank: bool,
}

// What the reading of a token list answers.
#[derive(Clone, Copy, PartialEq, Eq)]
pub struct ParsedTokens {
    pub takes: u64,
    pub items: u32,
    pub blank: bool,
}

// What is answered of a reading.
fn answer(takes: u32, items: u32) -> ParsedTokens
    ensures { list_values result ≡ takes ∷ items ∷ bit (eqb items 0) ∷ [] }
{
    ParsedTokens {
        takes: takes as u64,
        items,
        blank: items == 0,
    }
}

// The reading of an accepted list for which the buffers are long enough: the bracket pass, which decides every attempt, and the second
// part from its marks.
fn read_list(
    text: &[u8],
    table: &[u32],
    count: usize,
    work: &mut [u32],
    tree: &mut [u32],
) -> Result<ParsedTokens, Refusal>
    requires table_value { list_refusal text.now count table.now ≡ none }
    requires tree_value { room_refusal (count_others (token_list count table.now)) (length work.old) (length tree.old) ≡ none }
    ensures { (list_answer_of result, work.new, tree.new)
        ≡ parsed_tokens text.now table.now count work.old tree.old }
{
    match pair_list(text, table, count, false, work)? {
        Pass::Read { entries, takes } => {
            let r = build_tree(text, table, entries, work, tree);
            Ok(answer(takes, r.items))
        }
        // no attempt to make: the second part alone is the whole reading
        Pass::Plain(n) => {
            let r = build_tree(text, table, n, work, tree);
            Ok(answer(r.takes, r.items))
        }
    }
}

// Reads a list of `count` tokens over a text: the tree's words, or a refusal by 1 to 6, 8 or 9.
// kept: the table with a count beside it, as the C interface lends it
pub fn parse_tokens(
    text: &[u8],
    table: &[u32],
    count: usize,
    work: &mut [u32],
    tree: &mut [u32],
) -> Result<ParsedTokens, Refusal>
    ensures { (list_answer_of result, work.new, tree.new)
        ≡ parsed_tokens text.now table.now count work.old tree.old }
{
    let others = check_list(text, table, count)?;
    check_room(others, work.len(), tree.len())?;
    read_list(text, table, count, work, tree)
}

// Reads a text: its tokens, its tree's words, or a refusal by 1, 2, 7, 8 or 9. Nothing is written before all are decided.
pub fn parse(
    text: &[u8],
    table: &mut [u32],
    work: &mut [u32],
    tree: &mut [u32],
) -> Result<Parsed, Refusal>
    ensures { (answer_of result, table.new, work.new, tree.new)
        ≡ parsed_text text.now table.old work.old tree.old }
{
    let room = room_for(work.len(), tree.len());
    match tokenize_under(text, table, room)? {
        TokenizedUnder::Many { others } => Err(lacking(others, work.len())),
        TokenizedUnder::Tokens { all, others: _ } => {
            let read = read_list(text, table, all, work, tree)?;
            Ok(Parsed {
                tokens: all,
                takes: read.takes,
                items: read.items,
                blank: read.blank,
            })
        }
    }
}
