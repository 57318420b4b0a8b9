// The search for a proof of one judgment as a call of its own, for the host's tests.
#![tactic(auto)]

pub mod answer;
pub mod asked;
pub mod judged;
pub mod search;
