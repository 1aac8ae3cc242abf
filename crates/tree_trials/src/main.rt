// Replays texts and token lists, a line each on standard input: a text in hex digits; for a token list a colon behind the text and
// then start, length and kind of each token, a comma behind each number. Of a text it prints the tree; of a list takes and items,
// and the words of its tree without the zeros behind them; of both the closers of the tokens other than Space. The file `stdout` beside
// src/ has the Rust's answers to the lines of the file `stdin`. Its first lines are document 01's 'Strings to try', the 18 texts and the
// two token lists, in its order.
#![tactic(auto)]

mod answer;
mod input;

use answer::{print_list, print_text};
use input::{Sign, read_text};
use std::io;
use std::io::{Bytes, Read};

fn print_answer(
    rt: &impl Print,
    input: &mut Bytes<impl Read + Drop>,
    text: &[u8],
    behind: Sign,
) -> io::Result<()> {
    if behind == Sign::Colon {
        print_list(rt, input, text)?;
    } else {
        print_text(rt, text)?;
    }
    println!(rt; "--")
}

// One line; whether there was one.
fn replay(rt: &impl Print, input: &mut Bytes<impl Read + Drop>) -> io::Result<bool> {
    let mut text = [0u8; 4097];
    let t = read_text(input, &mut text)?;
    if t.behind == Sign::End {
        return Ok(false);
    }
    if let Some(text) = text.get(..t.n) {
        print_answer(rt, input, text, t.behind)?;
    }
    Ok(true)
}

// A proved loop has to end, and nothing says that the input does, so it counts its turns.
fn main(rt: HostRuntime) -> io::Result<()> {
    let mut input = rt.reader().bytes();
    for _ in 0..100000 {
        if !replay(&rt, &mut input)? {
            break;
        }
    }
    Ok(())
}
