// The term graph in lent cells.
#![tactic(auto)]

pub mod graph;
pub mod nodes;
// Where the words of its table stand.
pub mod places;
