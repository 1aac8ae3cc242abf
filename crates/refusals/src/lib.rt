// The refusals of document 01, and those of a text, 1 and 2, each under exactly its condition.
#![tactic(auto)]

pub mod refusal;
pub mod text;
