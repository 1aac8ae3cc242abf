// The refusals of the calls on a token list.
use crate::compare::kept;
use crate::faults::{cond, cut, first_bytes, first_fault, text_of};
use refusals::refusal::Refusal;

// The faults 1, 2, 3, 4, 5, 6, 8, 9 of a set.
const FAULTS: [Refusal; 8] = [
    Refusal::LongText,
    Refusal::NotAscii,
    Refusal::ShortList,
    Refusal::UnknownKind,
    Refusal::SpanPastText,
    Refusal::SpaceAfterSpace,
    Refusal::ShortWork,
    Refusal::ShortTree,
];

// Whether a call with buffers for four tokens, one word short by the set of faults, answers the fault that it should.
pub(crate) fn closers(
    text: &[u8],
    table: &[u32],
    count: usize,
    set: usize,
    fault: Option<Refusal>,
) -> bool {
    let mut out = [7u32; 2];
    let answer = closers::closers(text, table, count, cut(&mut out, set, 64));
    answer.err() == fault && kept(fault, &out)
}

pub(crate) fn parse(
    text: &[u8],
    table: &[u32],
    count: usize,
    set: usize,
    fault: Option<Refusal>,
) -> bool {
    let mut work = [7u32; 6];
    let mut tree = [7u32; 96];
    let answer = parse::parse_tokens(
        text,
        table,
        count,
        cut(&mut work, set, 64),
        cut(&mut tree, set, 128),
    );
    answer.err() == fault && kept(fault, &work) && kept(fault, &tree)
}

// Space, Ident, Space, Ident: the second token has 4 and 5, the last one 6. The span's start and length would be 0 if they were added
// with wrapping.
fn table_of(set: usize) -> [u32; 12] {
    let len = cond(set / 16, 4294967295, 1);
    let kind = cond(set / 8, 24, 6);
    let last = cond(set / 32, 23, 6);
    [0, 1, 23, 1, len, kind, 0, 1, 23, 2, 1, last]
}

// Whether the call answers as it should for each set of faults.
pub(crate) fn all_sets<F: Fn(&[u8], &[u32], usize, usize, Option<Refusal>) -> bool>(
    sets: usize,
    call: F,
) -> bool
    requires { F.IsAlwaysCallable call }
{
    (0..sets).all(|set| {
        let text = text_of(set);
        let table = table_of(set);
        let n = 12 - set / 4 % 2;
        let fault = first_fault(set, &FAULTS);
        call(first_bytes(&text, set), &table[..n], 4, set, fault)
    })
}

// Whether both calls refuse the list of so many tokens by this refusal, and change nothing.
fn is_refused(refusal: Refusal, table: &[u32]) -> bool {
    let count = table.len() / 3;
    closers(b"a b", table, count, 0, Some(refusal)) && parse(b"a b", table, count, 0, Some(refusal))
}

pub(crate) fn many_tokens() -> bool {
    is_refused(Refusal::ShortList, &[0; 12291])
}

// A token with 5 and 6; then 6 before 4, 5 before 4, 6 before 5, each in an earlier token.
pub(crate) fn in_order() -> bool {
    is_refused(Refusal::SpanPastText, &[0, 1, 23, 3, 1, 23])
        && is_refused(Refusal::SpaceAfterSpace, &[0, 1, 23, 1, 1, 23, 1, 1, 24])
        && is_refused(Refusal::SpanPastText, &[3, 1, 6, 1, 1, 24])
        && is_refused(Refusal::SpaceAfterSpace, &[0, 1, 23, 1, 1, 23, 3, 1, 6])
}
