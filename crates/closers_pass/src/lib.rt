// The bracket pass: for each entry the place of its closer.
#![tactic(auto)]

mod cursor;
mod readers;
mod tests;
pub mod top;
