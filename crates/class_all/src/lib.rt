// The figures' sums over the classes.
#![tactic(auto)]

pub mod totals;
// The classes of a pack's needed steps, made one by one.
pub mod all;
pub mod class;
