// The stepped tokenizer, held against the list.
use crate::same::listed;
use lex::Spanned;
use refusals::refusal::Refusal;
use stepper::Tokenizer;

// An answer, and the state after it.
#[derive(Clone, Copy, PartialEq, Eq, Drop)]
struct Moved {
    answer: Result<Option<Spanned>, Refusal>,
    state: Tokenizer,
}

// One step from a state, which is lent to the call.
fn step(text: &[u8], s: Tokenizer) -> Moved {
    let mut state = s;
    let answer = state.next(text);
    Moved { answer, state }
}

// Whether two steps answer the end and leave the state as it is.
fn ends(text: &[u8], s: Tokenizer) -> bool {
    let end = Moved {
        answer: Ok(None),
        state: s,
    };
    let once = step(text, s);
    once == end && step(text, once.state) == end
}

// Whether the steps from the text's start answer the tokens of the list, one after the other, and then the end for good.
pub(crate) fn steps_agree(text: &[u8], list: &[u32]) -> bool {
    let mut s = Tokenizer::new();
    for i in 0..list.len() / 3 {
        let m = step(text, s);
        if m.answer != Ok(listed(list, i)) {
            return false;
        }
        s = m.state;
    }
    ends(text, s)
}

// Whether a step from the place, with no token waiting, is refused by the number, and leaves the state as it is.
pub(crate) fn step_refused(text: &[u8], place: usize, refusal: Refusal) -> bool {
    let s = Tokenizer {
        place,
        ..Tokenizer::new()
    };
    step(text, s)
        == Moved {
            answer: Err(refusal),
            state: s,
        }
}
