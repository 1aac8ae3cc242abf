// The refusals of the calls on a text. Every set of faults is tried, and so each refusal alone and together with any others: the first
// in document 01's order must be answered, and nothing be changed. No fault at all must be accepted, with buffers that are just long
// enough.
use crate::compare::{all_are, kept, kept_print};
use crate::faults::{cut, first_bytes, first_fault, text_of};
use refusals::refusal::Refusal;

// The faults 1, 2, 7, 8, 9, 10 of a set.
const FAULTS: [Refusal; 6] = [
    Refusal::LongText,
    Refusal::NotAscii,
    Refusal::ShortTable,
    Refusal::ShortWork,
    Refusal::ShortTree,
    Refusal::ShortPrint,
];

// Whether a call on `a b`, or on 4,097 bytes, with buffers one word or byte short, by the set of faults, answers the fault that it should.
pub(crate) fn count(text: &[u8], _set: usize, fault: Option<Refusal>) -> bool {
    tokenizer::count_tokens(text).err() == fault
}

pub(crate) fn tokenize(text: &[u8], set: usize, fault: Option<Refusal>) -> bool {
    let mut table = [7u32; 9];
    let answer = tokenizer::tokenize(text, cut(&mut table, set, 4));
    answer.err() == fault && kept(fault, &table)
}

pub(crate) fn closers(text: &[u8], set: usize, fault: Option<Refusal>) -> bool {
    let mut table = [7u32; 9];
    let mut out = [7u32; 2];
    let answer = closers::closers_text(text, cut(&mut table, set, 4), cut(&mut out, set, 8));
    answer.err() == fault && kept(fault, &table) && kept(fault, &out)
}

pub(crate) fn parse(text: &[u8], set: usize, fault: Option<Refusal>) -> bool {
    let mut table = [7u32; 9];
    let mut work = [7u32; 6];
    let mut tree = [7u32; 96];
    let answer = parse::parse(
        text,
        cut(&mut table, set, 4),
        cut(&mut work, set, 8),
        cut(&mut tree, set, 16),
    );
    answer.err() == fault && kept(fault, &table) && kept(fault, &work) && kept(fault, &tree)
}

pub(crate) fn print(text: &[u8], set: usize, fault: Option<Refusal>) -> bool {
    let mut table = [7u32; 9];
    let mut work = [7u32; 6];
    let mut tree = [7u32; 96];
    let mut out = [7u8; 186];
    let answer = print::print(
        text,
        cut(&mut table, set, 4),
        cut(&mut work, set, 8),
        cut(&mut tree, set, 16),
        cut(&mut out, set, 32),
    );
    answer.err() == fault
        && kept(fault, &table)
        && kept(fault, &work)
        && kept(fault, &tree)
        && kept_print(fault, &out)
}

// Whether the call answers as it should for each set of faults.
pub(crate) fn all_sets<F: Fn(&[u8], usize, Option<Refusal>) -> bool>(sets: usize, call: F) -> bool
    requires { F.IsAlwaysCallable call }
{
    (0..sets).all(|set| call(
        first_bytes(&text_of(set), set),
        set,
        first_fault(set, &FAULTS),
    ))
}

// 10 against acceptance, word by word.
pub(crate) fn short_print() -> bool {
    let mut table = [7u32; 12];
    let mut work = [7u32; 9];
    let mut tree = [7u32; 100];
    let printed = print::print(b"a b", &mut table, &mut work, &mut tree, &mut [7; 185]);
    printed.err() == Some(Refusal::ShortPrint) && all_are(&work, 0) && is_parsed(&table, &tree)
}

// Whether the table and the tree are as after `a b` was accepted.
fn is_parsed(table: &[u32; 12], tree: &[u32; 100]) -> bool {
    let mut table2 = [7u32; 12];
    let mut tree2 = [7u32; 100];
    let parsed = parse::parse(b"a b", &mut table2, &mut [7; 9], &mut tree2);
    parsed.is_ok() && *table == table2 && *tree == tree2
}
