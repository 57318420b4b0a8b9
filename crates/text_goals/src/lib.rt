// A goal's lines: its name and general form, and a line for each variable of its class's conclusion.
#![tactic(auto)]

pub mod form;
pub mod lines;
pub mod values;
// The goals one after the other, each tested and shown.
pub mod goal;
pub mod goals;
// The goals as shown, whole: from a pack that was read to the classes, the text and the figures.
pub mod show;
