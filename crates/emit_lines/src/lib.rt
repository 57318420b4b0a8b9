// The text of emission's lines, put behind a text in a lent buffer: names, variables, words, cases.
#![tactic(auto)]

pub mod case;
pub mod list;
pub mod name;
pub mod variable;
pub mod word;
// A writer for each kind of line.
pub mod line;
