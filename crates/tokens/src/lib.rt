// The token list, which is all that the parser knows of the tokenizer: the kinds of tokens. The token table and its refusals are
// definitions.
#![tactic(auto)]

pub mod kinds;
pub mod token;
