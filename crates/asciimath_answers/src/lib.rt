// The answers of the calls as plain numbers: 0, and the values of an accepted call first in the lent answer, as many as it has words for; or
// the number of the refusal, and the answer as it was.
#![tactic(auto)]

ghost use Rattle.std.specs.Prelude.{◌≡◌, List, [], ◌∷◌, ℕ};
ghost use Rattle.tokens.specs.Refusals.{accepted, bit};
ghost use Rattle.refusals.specs.Refusal.{answered};
ghost use Rattle.asciimath_answers.specs.Exported.{Given, values_in, lookup_values};

use closers::PairedText;
use lexer::prefix_map::Longest;
use mathml::Marked;
use parse::{Parsed, ParsedTokens};
use print::Printed;
use refusals::refusal::Refusal;
use tokenizer::Counted;

// What an accepted call answers, as values.
pub trait Values {
    ghost values: { Self → List ℕ };

    // Puts them first in the answer, as many as it has words for.
    fn put(self, answer: &mut [u64])
        ensures { answer.new ≡ values_in (accepted (values self)) answer.old };
}

fn put_all(answer: &mut [u64], values: &[u64])
    ensures { answer.new ≡ values_in (accepted values.now) answer.old }
{
    let n = answer.len().min(values.len());
    answer[..n].copy_from_slice(&values[..n]);
}

// Tokens of a text that is tokenized; of a list that is paired those other than Space.
impl Values for usize {
    ghost values = { λ n. n ∷ [] };

    fn put(self, answer: &mut [u64]) {
        put_all(answer, &[self as u64]);
    }
}

// Tokens, tokens other than Space.
impl Values for Counted {
    ghost values = { λ c. c.all ∷ c.others ∷ [] };

    fn put(self, answer: &mut [u64]) {
        put_all(answer, &[self.all as u64, self.others as u64]);
    }
}

// The length of the spelling, its kind and its row; or a length of 0 alone, if there is none.
impl Values for Option<Longest> {
    ghost values = { lookup_values };

    fn put(self, answer: &mut [u64]) {
        match self {
            Some(Longest { len, token, row }) => {
                let kind = u32::from(token) as u64;
                put_all(answer, &[len as u64, kind, row as u64]);
            }
            None => put_all(answer, &[0]),
        }
    }
}

// Tokens, takes, items of the root, blank.
impl Values for Parsed {
    ghost values = { λ p. p.tokens ∷ p.takes ∷ p.items ∷ bit p.blank ∷ [] };

    fn put(self, answer: &mut [u64]) {
        let blank = self.blank as u64;
        put_all(
            answer,
            &[self.tokens as u64, self.takes, self.items as u64, blank],
        );
    }
}

// Takes, items of the root, blank.
impl Values for ParsedTokens {
    ghost values = { λ p. p.takes ∷ p.items ∷ bit p.blank ∷ [] };

    fn put(self, answer: &mut [u64]) {
        put_all(answer, &[self.takes, self.items as u64, self.blank as u64]);
    }
}

// The length of the print, takes, blank.
impl Values for Printed {
    ghost values = { λ p. p.len ∷ p.takes ∷ bit p.blank ∷ [] };

    fn put(self, answer: &mut [u64]) {
        let Printed { len, takes, blank } = self;
        put_all(answer, &[len as u64, takes, blank as u64]);
    }
}

// The length of the MathML, takes, blank.
impl Values for Marked {
    ghost values = { λ m. m.len ∷ m.takes ∷ bit m.blank ∷ [] };

    fn put(self, answer: &mut [u64]) {
        put_all(answer, &[self.len as u64, self.takes, self.blank as u64]);
    }
}

// Tokens, tokens other than Space.
impl Values for PairedText {
    ghost values = { λ p. p.tokens ∷ p.others ∷ [] };

    fn put(self, answer: &mut [u64]) {
        put_all(answer, &[self.tokens as u64, self.others as u64]);
    }
}

// The answer of any call.
pub fn give<T: Values>(answer: &mut [u64], got: Result<T, Refusal>) -> u32
    ensures { Given (answered T.values got) result answer.old answer.new }
{
    match got {
        Ok(values) => {
            values.put(answer);
            0
        }
        Err(refusal) => refusal.number() as u32,
    }
}
