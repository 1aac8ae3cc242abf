// Replays texts: reads them from standard input, each a line of hex digits, and prints each text's tokens as start,len,kind and then
// the rows of its reads as place:row, a line a text, or its refusal. The tokens are those that `tokenize` lists; the steps of
// `Tokenizer`, the reads of `lex_at` and the lookup are held against them, and where one differs a word is printed in the line. The file
// `stdout` beside src/ has the Rust's tokens of the texts of the file `stdin`, and their rows in the Rust's table. Its first lines are
// document 01's 'Strings to try', in its order, and all 429 spellings are among the others.
#![tactic(auto)]

mod answer;
mod input;
mod reads;
mod same;
mod steps;

use answer::print_answer;
use input::{END, read_text};
use std::io;
use std::io::{Bytes, Read};

// One line; whether there was one.
fn replay(rt: &impl Print, input: &mut Bytes<impl Read + Drop>) -> io::Result<bool> {
    let mut text = [0u8; 4097];
    let t = read_text(input, &mut text)?;
    let n = t.len;
    if t.behind == END {
        return Ok(false);
    }
    if n <= 4097 {
        print_answer(rt, &text[..n])?;
    }
    Ok(true)
}

// A proved loop has to end, and nothing says that the input does, so it counts its turns.
fn main(rt: HostRuntime) -> io::Result<()> {
    let mut input = rt.reader().bytes();
    for _ in 0..100000 {
        if !replay(&rt, &mut input)? {
            break;
        }
    }
    Ok(())
}
