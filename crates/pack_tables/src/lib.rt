// The framing of records, and what their bodies are made of: names and rows of words.
#![tactic(auto)]

pub mod field;
pub mod header;
pub mod name;
pub mod row;
pub mod unread;
// One kind of record in work: its records by number, and by key.
pub mod region;
// The tables of a pack's records of all kinds.
pub mod catalog;
