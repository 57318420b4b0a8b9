// The row of a rule's class, with the marks of its variables.
#![tactic(auto)]

pub mod flex;
pub mod row;
// The class that a step's rule makes, whole.
pub mod rule;
