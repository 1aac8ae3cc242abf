// Tries the refusals of every call, alone and together. Each line that it writes is a fact, and `ok` if it was found so. (Document 01's
// 'Strings to try' are run by token_trials and tree_trials.)
#![tactic(auto)]

mod compare;
mod faults;
mod texts;
mod token_lists;

use std::io;

fn say(rt: &impl Print, fact: &str, found: bool) -> io::Result<()> {
    let found = if found { "ok" } else { "NOT SO" };
    println!(rt; "{fact}: {found}")
}

fn say_texts(rt: &impl Print) -> io::Result<()> {
    say(
        rt,
        "count_tokens: all 4 sets of 1, 2",
        texts::all_sets(4, texts::count),
    )?;
    say(
        rt,
        "tokenize: all 8 sets of 1, 2, 7",
        texts::all_sets(8, texts::tokenize),
    )?;
    say(
        rt,
        "closers_text: all 16 sets of 1, 2, 7, 8",
        texts::all_sets(16, texts::closers),
    )?;
    say(
        rt,
        "parse: all 32 sets of 1, 2, 7, 8, 9",
        texts::all_sets(32, texts::parse),
    )?;
    say(
        rt,
        "print: all 64 sets of 1, 2, 7, 8, 9, 10",
        texts::all_sets(64, texts::print),
    )?;
    say(
        rt,
        "10 leaves table, work and tree as after acceptance",
        texts::short_print(),
    )
}

fn say_lists(rt: &impl Print) -> io::Result<()> {
    say(
        rt,
        "closers: all 128 sets of 1, 2, 3, 4, 5, 6, 8",
        token_lists::all_sets(128, token_lists::closers),
    )?;
    say(
        rt,
        "parse_tokens: all 256 sets of 1, 2, 3, 4, 5, 6, 8, 9",
        token_lists::all_sets(256, token_lists::parse),
    )?;
    say(rt, "4,097 tokens are 3", token_lists::many_tokens())?;
    say(
        rt,
        "the first token with a fault decides",
        token_lists::in_order(),
    )
}

fn main(rt: HostRuntime) -> io::Result<()> {
    say_texts(&rt)?;
    say_lists(&rt)
}
