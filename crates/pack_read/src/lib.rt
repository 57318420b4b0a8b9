// The parsed pack, read in place: its bytes are never copied.
#![tactic(auto)]

pub mod abstracted;
pub mod body;
pub mod cut;
pub mod node;
pub mod step;
pub mod symbol;
// The names of records, and the results that goals have by them.
pub mod goal;
pub mod name;
// A rule of the pack: its variables, and its terms word by word.
pub mod rule;
