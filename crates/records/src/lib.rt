// The record of an entry, a token other than Space, in the work words: docs/LAYOUT.md. Its token, the Space before it, and the bits of
// its words.
#![tactic(auto)]

pub mod bits;
pub mod record;
pub mod space;

// The words of a record.
pub const RECORD_WORDS: usize = 2;
