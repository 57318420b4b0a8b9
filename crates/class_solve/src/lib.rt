// The ground values that the judgments of a step's refs give to the graph of its rule's premises.
#![tactic(auto)]

pub mod values;
// The class that a step makes by its rule.
pub mod solve;
