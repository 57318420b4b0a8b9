// A rule's premises as patterns.
#![tactic(auto)]

pub mod build;
pub mod building;
pub mod premises;
pub mod rule;
pub mod turn;
