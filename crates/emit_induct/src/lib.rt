// Induction on L: all its cases and its line; a cut judgment's proof, by rules or else by induction; the candidates for an output.
#![tactic(auto)]

pub mod candidates;
pub mod cases;
pub mod cut;
