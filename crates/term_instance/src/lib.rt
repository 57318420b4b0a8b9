// The instance test: a pattern of the store against a ground node of the pack.
#![tactic(auto)]

pub mod instance;
pub mod tables;
