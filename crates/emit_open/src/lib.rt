// The variables that record 9 opens in a pattern.
#![tactic(auto)]

pub mod open;
