// What class building comes to, ahead of clearing.
#![tactic(auto)]

pub mod classes_outcome;
// What showing the goals comes to, ahead of clearing.
pub mod show_outcome;
// What the step check comes to, ahead of clearing.
pub mod check_outcome;
// The calls of a dock.
pub mod check;
pub mod classes;
pub mod show;
