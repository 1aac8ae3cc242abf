// What is written of one node, from its own words: what opens it, what stands before each of its children, what closes it; the mode that it
// hands to a child; and whether it is refused. The bytes of its children are not looked at.
#![tactic(auto)]

pub mod below;
pub mod closing;
pub mod node;
pub mod opening;
pub mod refusal;
mod script;
