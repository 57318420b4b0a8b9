// What class building has at hand.
#![tactic(auto)]

pub mod building;
pub mod layout;
// One premise of a rule in the term graph, unified with a copy of its ref's conclusion.
pub mod copies;
pub mod premise;
// The rows of classes, and what class building holds between one class and the next.
pub mod row;
// All premises of the step that makes a class.
pub mod premises;
