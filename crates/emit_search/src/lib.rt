// The search: a judgment is looked up, or proved by the first rule of its predicate all of whose premises are proved one level deeper.
#![tactic(auto)]

pub mod failed;
pub mod known;
pub mod prove;
pub mod rules;
