// The row of a cut class: all its variables are flexible.
#![tactic(auto)]

pub mod row;
// Cut classes: a predicate over distinct flexible variables.
pub mod conclusion;
pub mod cut;
