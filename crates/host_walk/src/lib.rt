// What the calls that walk over patterns and graphs have in common: where their words stand in work, a store of patterns by a list, a
// node read back with all variables numbered, and the answer with the buffers cleared.
#![tactic(auto)]

pub mod answer;
pub mod back;
pub mod list;
pub mod place;
// Copies a pattern and reads the copy back, for the host's tests and benchmark.
pub mod copies;
