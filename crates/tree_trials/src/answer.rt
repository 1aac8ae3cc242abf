// The answers to one text or one token list. A refusal is `refused=` and its number, and each answer ends in a line `--`.
use crate::input::read_words;
use refusals::refusal::Refusal;
use std::io;
use std::io::{Bytes, Read};

fn print_refusal(rt: &impl Print, refusal: Refusal) -> io::Result<()> {
    let number = refusal.number();
    print!(rt; "refused={number}")?;
    println!(rt; "")
}

fn print_words(rt: &impl Print, words: &[u32]) -> io::Result<()> {
    for word in words {
        print!(rt; "{word} ")?;
    }
    println!(rt; "")
}

// The first n words, or all.
fn first_words(words: &[u32], n: usize) -> &[u32] {
    words.get(..n).unwrap_or(words)
}

fn print_text_closers(rt: &impl Print, text: &[u8]) -> io::Result<()> {
    let mut table = [0u32; 3072];
    let mut out = [0u32; 1024];
    match closers::closers_text(text, &mut table, &mut out) {
        Ok(paired) => print_words(rt, first_words(&out, paired.others)),
        Err(refusal) => print_refusal(rt, refusal),
    }
}

// A text of at most 1,023 bytes.
pub(crate) fn print_text(rt: &impl Print, text: &[u8]) -> io::Result<()> {
    let mut table = [0u32; 3072];
    let mut work = [0u32; 2048];
    let mut tree = [0u32; 32768];
    let mut out = [0u8; 60000];
    match print::print(text, &mut table, &mut work, &mut tree, &mut out) {
        Ok(printed) => {
            if let Some(bytes) = out.get(..printed.len) {
                rt.write_all(bytes)?;
            }
        }
        Err(refusal) => print_refusal(rt, refusal)?,
    }
    print_text_closers(rt, text)
}

// How many words stand before the zeros at the end.
fn words_before_zeros(tree: &[u32]) -> usize {
    tree.iter().rev().skip_while(|word| **word == 0).count()
}

fn print_tree(rt: &impl Print, takes: u64, items: u32, tree: &[u32]) -> io::Result<()> {
    print!(rt; "takes={takes}")?;
    print!(rt; " items={items}")?;
    println!(rt; "")?;
    print_words(rt, first_words(tree, words_before_zeros(tree)))
}

fn print_list_closers(rt: &impl Print, text: &[u8], table: &[u32]) -> io::Result<()> {
    let mut out = [0u32; 100];
    match closers::closers(text, table, table.len() / 3, &mut out) {
        Ok(others) => print_words(rt, first_words(&out, others)),
        Err(refusal) => print_refusal(rt, refusal),
    }
}

fn print_list_by(rt: &impl Print, text: &[u8], table: &[u32]) -> io::Result<()> {
    let mut work = [0u32; 202];
    let mut tree = [0u32; 3232];
    match parse::parse_tokens(text, table, table.len() / 3, &mut work, &mut tree) {
        Ok(parsed) => print_tree(rt, parsed.takes, parsed.items, &tree)?,
        Err(refusal) => print_refusal(rt, refusal)?,
    }
    print_list_closers(rt, text, table)
}

// A list of at most 100 tokens.
pub(crate) fn print_list(
    rt: &impl Print,
    input: &mut Bytes<impl Read + Drop>,
    text: &[u8],
) -> io::Result<()> {
    let mut table = [0u32; 300];
    let n = read_words(input, &mut table)?;
    print_list_by(rt, text, first_words(&table, n))
}
