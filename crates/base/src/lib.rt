// Parts of lent buffers, their words compared and their cells copied; ids, a hash, a stack.
#![tactic(auto)]

pub mod below;
pub mod copy;
pub mod hash;
pub mod id;
pub mod limit;
pub mod same;
pub mod stack;
