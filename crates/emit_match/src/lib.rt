// A rule's conclusion matched against a pattern of the store.
#![tactic(auto)]

pub mod pending;
pub mod places;
pub mod rule;
pub mod turn;
pub mod values;
