// The rules that conclude a predicate, and a sort's constructors, linked in the pack's order.
#![tactic(auto)]

pub mod chain;
pub mod constructors;
pub mod follow;
pub mod head;
pub mod rules;
