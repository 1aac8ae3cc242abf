// The parts of a text's MathML that need no table of spellings: tags, escaped bytes, elements that hold characters alone, and the start tag
// of a table with its lines.
#![tactic(auto)]

pub mod elements;
pub mod escape;
pub mod leaf;
pub mod lines;
pub mod numbered;
pub mod tags;
