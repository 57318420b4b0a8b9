// Numbers and text in lent buffers: little-endian reads, filling, decimal digits.
#![tactic(auto)]

pub mod decimal;
pub mod little;
pub mod zero;
