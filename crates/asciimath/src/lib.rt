// The reader for programs in C and Rust: its calls with plain numbers for answers. Each returns 0 and puts its values into the lent
// answer, as many as it has words for, or returns the number of a refusal and leaves the answer as it was (crates/asciimath_answers).
#![tactic(auto)]

ghost use Rattle.std.specs.Prelude.{◌≡◌};
ghost use Rattle.tokenizer.specs.Call.{tokenized, counted};
ghost use Rattle.parse.specs.Call.{parsed_text, parsed_tokens};
ghost use Rattle.mathml.specs.Call.{marked_text};
ghost use Rattle.print.specs.Call.{printed_text};
ghost use Rattle.closers.specs.Call.{closed_tokens, closed_text};
ghost use Rattle.lexing.specs.Longest.{longest_at};
ghost use Rattle.lexer.specs.Lookup.{longest_answer};
ghost use Rattle.asciimath_answers.specs.Exported.{code_of, values_in, looked_up};

use asciimath_answers::give;
use closers::{closers, closers_text};
use lexer::prefix_map::get_longest_prefix;
use mathml::mathml;
use parse::{parse, parse_tokens};
use print::print;
use tokenizer::{count_tokens, tokenize};

// Writes the text's token list into the table. Values: tokens.
#[unsafe(no_mangle)]
pub extern "C" fn asciimath_tokens(text: &[u8], table: &mut [u32], answer: &mut [u64]) -> u32
    ensures { (result ≡ code_of (tokenized text.now table.old).0)
        × (table.new ≡ (tokenized text.now table.old).1)
        × (answer.new ≡ values_in (tokenized text.now table.old).0 answer.old) }
{
    give(answer, tokenize(text, table))
}

// Counts the text's tokens. Values: tokens, tokens other than Space.
#[unsafe(no_mangle)]
pub extern "C" fn asciimath_count(text: &[u8], answer: &mut [u64]) -> u32
    ensures { (result ≡ code_of (counted text.now))
        × (answer.new ≡ values_in (counted text.now) answer.old) }
{
    give(answer, count_tokens(text))
}

// The longest spelling that begins a text at a place. Values: its length, its kind and its row; or a length of 0 alone, if none does.
#[unsafe(no_mangle)]
pub extern "C" fn asciimath_lookup(text: &[u8], at: usize, answer: &mut [u64]) -> u32
    ensures { (result ≡ code_of (looked_up (longest_answer (longest_at text.now at))))
        × (answer.new ≡ values_in (looked_up (longest_answer (longest_at text.now at))) answer.old) }
{
    give(answer, Ok(get_longest_prefix(text, at)))
}

// Reads a text. Values: tokens, takes, items of the root, blank.
#[unsafe(no_mangle)]
pub extern "C" fn asciimath_parse(
    text: &[u8],
    table: &mut [u32],
    work: &mut [u32],
    tree: &mut [u32],
    answer: &mut [u64],
) -> u32
    ensures { (result ≡ code_of (parsed_text text.now table.old work.old tree.old).0)
        × (table.new ≡ (parsed_text text.now table.old work.old tree.old).1)
        × (work.new ≡ (parsed_text text.now table.old work.old tree.old).2)
        × (tree.new ≡ (parsed_text text.now table.old work.old tree.old).3)
        × (answer.new
        ≡ values_in (parsed_text text.now table.old work.old tree.old).0 answer.old) }
{
    give(answer, parse(text, table, work, tree))
}

// Reads a list of `count` tokens over a text. Values: takes, items of the root, blank.
#[unsafe(no_mangle)]
pub extern "C" fn asciimath_parse_tokens(
    text: &[u8],
    table: &[u32],
    count: usize,
    work: &mut [u32],
    tree: &mut [u32],
    answer: &mut [u64],
) -> u32
    ensures { (result ≡ code_of (parsed_tokens text.now table.now count work.old tree.old).0)
        × (work.new ≡ (parsed_tokens text.now table.now count work.old tree.old).1)
        × (tree.new ≡ (parsed_tokens text.now table.now count work.old tree.old).2)
        × (answer.new
        ≡ values_in (parsed_tokens text.now table.now count work.old tree.old).0 answer.old) }
{
    give(answer, parse_tokens(text, table, count, work, tree))
}

// Reads a text and prints its tree. Values: the length of the print, takes, blank.
#[unsafe(no_mangle)]
pub extern "C" fn asciimath_print(
    text: &[u8],
    table: &mut [u32],
    work: &mut [u32],
    tree: &mut [u32],
    out: &mut [u8],
    answer: &mut [u64],
) -> u32
    ensures { (result ≡ code_of (printed_text text.now table.old work.old tree.old out.old).0)
        × (table.new ≡ (printed_text text.now table.old work.old tree.old out.old).1)
        × (work.new ≡ (printed_text text.now table.old work.old tree.old out.old).2)
        × (tree.new ≡ (printed_text text.now table.old work.old tree.old out.old).3)
        × (out.new ≡ (printed_text text.now table.old work.old tree.old out.old).4)
        × (answer.new ≡ values_in (printed_text text.now table.old work.old tree.old out.old).0 answer.old) }
{
    give(answer, print(text, table, work, tree, out))
}

// Reads a text and writes its MathML. Values: the length of the MathML, takes, blank.
#[unsafe(no_mangle)]
pub extern "C" fn asciimath_mathml(
    text: &[u8],
    table: &mut [u32],
    work: &mut [u32],
    tree: &mut [u32],
    out: &mut [u8],
    answer: &mut [u64],
) -> u32
    ensures { (result ≡ code_of (marked_text text.now table.old work.old tree.old out.old).0)
        × (table.new ≡ (marked_text text.now table.old work.old tree.old out.old).1)
        × (work.new ≡ (marked_text text.now table.old work.old tree.old out.old).2)
        × (tree.new ≡ (marked_text text.now table.old work.old tree.old out.old).3)
        × (out.new ≡ (marked_text text.now table.old work.old tree.old out.old).4)
        × (answer.new ≡ values_in (marked_text text.now table.old work.old tree.old out.old).0 answer.old) }
{
    give(answer, mathml(text, table, work, tree, out))
}

// The closers of a list of `count` tokens over a text. Values: tokens other than Space.
#[unsafe(no_mangle)]
pub extern "C" fn asciimath_closers(
    text: &[u8],
    table: &[u32],
    count: usize,
    out: &mut [u32],
    answer: &mut [u64],
) -> u32
    ensures { (result ≡ code_of (closed_tokens text.now table.now count out.old).0)
        × (out.new ≡ (closed_tokens text.now table.now count out.old).1)
        × (answer.new ≡ values_in (closed_tokens text.now table.now count out.old).0 answer.old) }
{
    give(answer, closers(text, table, count, out))
}

// The tokens of a text and their closers. Values: tokens, tokens other than Space.
#[unsafe(no_mangle)]
pub extern "C" fn asciimath_closers_text(
    text: &[u8],
    table: &mut [u32],
    out: &mut [u32],
    answer: &mut [u64],
) -> u32
    ensures { (result ≡ code_of (closed_text text.now table.old out.old).0)
        × (table.new ≡ (closed_text text.now table.old out.old).1)
        × (out.new ≡ (closed_text text.now table.old out.old).2)
        × (answer.new ≡ values_in (closed_text text.now table.old out.old).0 answer.old) }
{
    give(answer, closers_text(text, table, out))
}
