// A rule's terms, read in place.
#![tactic(auto)]

pub mod terms;
// The Horn theory of a pack taken up record by record: sorts, symbols and rules.
pub mod rule;
pub mod sort;
pub mod symbol;
pub mod taken;
// The certificate taken up record by record: nodes, steps, goals, results, cuts and the abstract record.
pub mod abstracted;
pub mod goal;
pub mod node;
pub mod result;
pub mod step;
// A cut record taken up, and the predicates marked as cut.
pub mod cut;
// The pack read: its records one behind the other, each taken up into the tables in work.
pub mod next;
pub mod read;
