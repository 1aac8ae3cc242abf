// What a sign, a symbol or a bracket is drawn as.
#![tactic(auto)]

pub mod equal;
pub mod forms;
pub mod key;
pub mod numbered;
pub mod shown;
