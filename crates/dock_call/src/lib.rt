// What calls have in common: the lengths lent to them, tested ahead of the pack, the pack read, the answer by document 01's table, the
// zeros that they leave.
#![tactic(auto)]

pub mod answer;
pub mod leave;
pub mod lent;
pub mod opening;
