// A rule's variables and terms in the term graph.
#![tactic(auto)]

pub mod count;
pub mod terms;
pub mod variables;
