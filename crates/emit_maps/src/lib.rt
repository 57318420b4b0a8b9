// Emission's five maps from a pattern to a number, in work, with a trail by which an attempt's entries are taken back.
#![tactic(auto)]

pub mod hyps;
pub mod maps;
pub mod trail;
