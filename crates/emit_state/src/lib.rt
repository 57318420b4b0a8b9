// What emission has at any moment: where its words stand in work, and its numbers.
#![tactic(auto)]

pub mod begin;
pub mod places;
pub mod standing;
