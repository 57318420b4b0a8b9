// Text written into a lent buffer: bytes, numbers, names of the pack.
#![tactic(auto)]

pub mod name;
pub mod put;
// Terms as text, with a budget: where their nodes are read, one node, all.
pub mod node;
pub mod source;
pub mod term;
