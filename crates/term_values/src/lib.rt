// The ground values of a graph's nodes in work, and the pairs still to be taken.
#![tactic(auto)]

pub mod values;
// The ground values of a graph term's roots, beside a ground node of the pack.
pub mod fix;
