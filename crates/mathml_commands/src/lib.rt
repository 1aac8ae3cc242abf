// Commands, modes and dropped brackets, from the bytes of a node's spans. Spellings are told apart by their keys (mathml_forms::key),
// which are the constants named after them.
#![tactic(auto)]

pub mod binary;
pub mod dropped;
pub mod refused;
pub mod unary;
