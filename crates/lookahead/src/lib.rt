// What the readers ask of the entry at the cursor and of their own depth, and how a look is counted.
#![tactic(auto)]

pub mod depth;
pub mod list;
pub mod takes;
pub mod tests;
