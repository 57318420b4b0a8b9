// The copy of one pattern node, with a fresh variable for a variable.
#![tactic(auto)]

pub mod node;
// A fresh copy of a pattern of the store in the term graph.
pub mod copy;
