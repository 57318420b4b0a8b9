// The table that reading back keeps in work, and what it asks of single nodes.
#![tactic(auto)]

pub mod table;
// One root of a graph read back as a pattern, behind its arguments.
pub mod root;
// A graph node read back as a pattern.
pub mod resolve;
