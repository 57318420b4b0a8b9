// The interned pattern store over lent words.
#![tactic(auto)]

pub mod nodes;
