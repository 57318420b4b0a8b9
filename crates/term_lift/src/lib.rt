// Ground nodes lifted into the interned store.
#![tactic(auto)]

pub mod intern;
pub mod lift;
