// A rule's words against nodes, with the values of its variables.
#![tactic(auto)]

pub mod matching;
pub mod pending;
pub mod values;
// The verdict on the steps and the goals of a pack that was read.
pub mod goals;
pub mod steps;
pub mod verdict;
