// The variables of the copies read back.
#![tactic(auto)]

pub mod entries;
// The variables of a graph that are fixed to their ground values.
pub mod fixed;
// A rule's conclusion behind its premises: put into the graph and read back, then the variables of the copies.
pub mod conclude;
pub mod top;
