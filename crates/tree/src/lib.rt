// The tree of a reading: its layout in words.
#![tactic(auto)]

pub mod kinds;
pub mod walk;
