// Single reads and the lookup, held against the list, and the rows of the reads.
use crate::same::listed;
use lex::{Lexing, Spanned, lex_at};
use lexer::prefix_map::{Longest, get_longest_prefix};
use refusals::refusal::Refusal;
use std::io;

// A place, and how many tokens of the list are read before it; none where a read's tokens were not the list's.
#[derive(Clone, Copy, PartialEq, Eq, Drop)]
struct Reached {
    place: usize,
    listed: Option<usize>,
}

// How many tokens of the list are read behind a read, before which there are i; none, if its tokens are not those of the list from the
// i-th on.
fn past_read(list: &[u32], i: usize, read: Lexing) -> Option<usize> {
    let Lexing { first, queued, .. } = read;
    if 4096 < i || 3 < queued.count {
        return None;
    }
    let tokens = [first, queued.first, queued.second, queued.third];
    for j in 0..queued.count + 1 {
        if listed(list, i + j) != Some(tokens[j]) {
            return None;
        }
    }
    Some(i + 1 + queued.count)
}

// Whether the lookup at the place answers the read's row, and with it the first token's length and kind.
fn is_looked_up(text: &[u8], at: usize, read: Lexing) -> bool {
    match get_longest_prefix(text, at) {
        Some(Longest { len, token, row }) => {
            let spelled = Spanned {
                token,
                start: at,
                len,
            };
            read.row == Some(row) && read.first == spelled
        }
        None => read.row.is_none(),
    }
}

// A place and the row of the token that is read there; `lookup` first, if the lookup answers another.
fn print_row(rt: &impl Print, text: &[u8], at: usize, read: Lexing) -> io::Result<()> {
    if !is_looked_up(text, at, read) {
        print!(rt; " lookup")?;
    }
    if let Some(row) = read.row {
        print!(rt; " {at}:{row}")?;
    }
    Ok(())
}

// One read: prints its row, if it has one, and answers the next place with the tokens of the list that are read before it.
fn read_row(rt: &impl Print, text: &[u8], list: &[u32], r: Reached) -> io::Result<Reached> {
    let Ok(Some(read)) = lex_at(text, r.place) else {
        return Ok(r);
    };
    print_row(rt, text, r.place, read)?;
    let listed = match r.listed {
        Some(i) => past_read(list, i, read),
        None => None,
    };
    Ok(Reached {
        place: read.next,
        listed,
    })
}

// The rows of the text's reads; then `read`, if these do not end with the text and the list. Each moves on, so as many as bytes are
// enough.
pub(crate) fn print_rows(rt: &impl Print, text: &[u8], list: &[u32]) -> io::Result<()> {
    let mut r = Reached {
        place: 0,
        listed: Some(0),
    };
    for _ in text {
        if text.len() <= r.place {
            break;
        }
        r = read_row(rt, text, list, r)?;
    }
    let end = Reached {
        place: text.len(),
        listed: Some(list.len() / 3),
    };
    if r != end {
        print!(rt; " read")?;
    }
    println!(rt; "")
}

// Whether a read at the place is refused so.
pub(crate) fn read_refused(text: &[u8], at: usize, refusal: Refusal) -> bool {
    lex_at(text, at) == Err(refusal)
}

// Whether a read at the text's end answers that nothing is left.
pub(crate) fn read_ends(text: &[u8]) -> bool {
    lex_at(text, text.len()) == Ok(None)
}
