// The printed tree of document 01, from the words of a tree.
#![tactic(auto)]

mod row;

ghost use Rattle.std.specs.Prelude.{◌≡◌};
ghost use Rattle.writer.specs.Put.{Put};
ghost use Rattle.line.specs.Print.{first};
ghost use Rattle.printer.specs.Call.{answer_of, print_words, fitted};

use refusals::refusal::Refusal;
use row::put_row;
use writer::{put_bytes, put_number};

fn put_first(out: &mut [u8], text: usize, tokens: usize, takes: u64, items: usize) -> usize
    ensures { Put out.old 0 out.new result (first text tokens takes items) }
{
    let a = put_number(out, 0, b"text=", text as u64);
    let b = put_number(out, a, b" tokens=", tokens as u64);
    let c = put_number(out, b, b" takes=", takes);
    let d = put_number(out, c, b" items=", items as u64);
    put_bytes(out, d, b"\n")
}

// The whole print: how many bytes it has, and in the buffer as many as it is long.
fn put_tree(
    words: &[u32],
    out: &mut [u8],
    text: usize,
    tokens: usize,
    takes: u64,
    items: usize,
) -> usize
    ensures { Put out.old 0 out.new result (print_words words.now text tokens takes items) }
{
    let end = put_first(out, text, tokens, takes, items);
    put_row(words, out, 0, end, items, true, 0).end
}

// Prints the tree whose words stand first in `words`: the print's bytes first in `out`, and how many they are. The length is found first,
// with a buffer of one byte, so that a buffer that is too short stays as it was.
pub fn print_tree(
    words: &[u32],
    out: &mut [u8],
    text: usize,
    tokens: usize,
    takes: u64,
    items: usize,
) -> Result<usize, Refusal>
    ensures { (answer_of result, out.new) ≡ fitted (print_words words.now text tokens takes items) out.old }
{
    let mut probe = [0u8; 1];
    let need = put_tree(words, &mut probe, text, tokens, takes, items);
    if need <= out.len() {
        put_tree(words, out, text, tokens, takes, items);
        Ok(need)
    } else {
        Err(Refusal::ShortPrint)
    }
}
