// A turn of unification: two roots meet, and their arguments become pairs.
#![tactic(auto)]

pub mod meet;
pub mod pairs;
// Unification of nodes, by a worklist of pairs behind the graph's rows.
pub mod unify;
// The test for circles in the term graph.
pub mod circle;
