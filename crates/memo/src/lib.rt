// Memos: maps by dense numbers that clear at once.
#![tactic(auto)]

pub mod memo;
pub mod part;
