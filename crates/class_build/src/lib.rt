// The goals' tests behind class building.
#![tactic(auto)]

pub mod goal;
pub mod goals;
pub mod goals_each;
// The figures of class building.
pub mod figures;
pub mod histogram;
// All is made ready for the first class.
pub mod begin;
pub mod places;
pub mod ready;
// Class building, whole: from a pack that was read to the classes, the goals tested and the figures.
pub mod build;
pub mod goal_tables;
