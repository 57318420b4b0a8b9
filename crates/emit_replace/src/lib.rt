// Another pattern put for L, and whether L stands in a pattern: walks that meet each pattern once.
#![tactic(auto)]

pub mod mentions;
pub mod put;
pub mod values;
pub mod walk;
