// The answer to one text.
use crate::reads::{print_rows, read_ends, read_refused};
use crate::steps::{step_refused, steps_agree};
use refusals::refusal::Refusal;
use std::io;
use tokenizer::tokenize;

// The i-th word of a token list.
fn print_word(rt: &impl Print, i: usize, word: u32) -> io::Result<()> {
    if 0 < i {
        rt.print(if i % 3 == 0 { ' ' } else { ',' })?;
    }
    rt.print(word)
}

// The words of a token list, three to a token.
fn print_tokens(rt: &impl Print, list: &[u32]) -> io::Result<()> {
    for (i, word) in list.iter().enumerate() {
        print_word(rt, i, *word)?;
    }
    Ok(())
}

// A table that has just the words needed gives the same number, and one a word shorter is refused.
fn is_exact(text: &[u8], table: &mut [u32]) -> bool {
    let words = table.len();
    if words == 0 {
        return true;
    }
    tokenize(text, table) == Ok(words / 3)
        && tokenize(text, &mut table[..words - 1]) == Err(Refusal::ShortTable)
}

// Whether a read at the place, and a step from it, are refused so.
fn is_refused(text: &[u8], place: usize, refusal: Refusal) -> bool {
    read_refused(text, place, refusal) && step_refused(text, place, refusal)
}

// The same one past the text's end, where 1 and 2 come before 5.
fn is_refused_past(text: &[u8], refusal: Refusal) -> bool {
    text.len() <= 4097 && is_refused(text, text.len() + 1, refusal)
}

// The refusal; `step` first, if a read or a step is not refused so.
fn print_refusal(rt: &impl Print, text: &[u8], refusal: Refusal) -> io::Result<()> {
    if !is_refused(text, 0, refusal) || !is_refused_past(text, refusal) {
        print!(rt; "step ")?;
    }
    println!(rt; "refused={}", refusal.number())
}

// The tokens, and the rows of the reads; `step` first, if the steps do not answer the list, and `end`, if the text's end is not told from
// the places past it.
fn print_list(rt: &impl Print, text: &[u8], list: &[u32]) -> io::Result<()> {
    if !steps_agree(text, list) {
        print!(rt; "step ")?;
    }
    if !read_ends(text) || !is_refused_past(text, Refusal::SpanPastText) {
        print!(rt; "end ")?;
    }
    print_tokens(rt, list)?;
    print_rows(rt, text, list)
}

pub(crate) fn print_answer(rt: &impl Print, text: &[u8]) -> io::Result<()> {
    let mut table = [0u32; 12288];
    match tokenize(text, &mut table) {
        Ok(n) if n <= 4096 => {
            if !is_exact(text, &mut table[..3 * n]) {
                print!(rt; "table ")?;
            }
            print_list(rt, text, &table[..3 * n])
        }
        // never: there are at most 4,096 tokens
        Ok(_) => Ok(()),
        Err(refusal) => print_refusal(rt, text, refusal),
    }
}
