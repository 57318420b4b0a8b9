// Patterns as words of lines: definitions ahead of a line, and the lines that state a judgment.
#![tactic(auto)]

pub mod define;
pub mod gather;
pub mod spell;
pub mod state;
pub mod walk;
