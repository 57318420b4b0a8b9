// A constructor's case of an induction: a pattern made, the goal, the hypotheses, the variables, and the case.
#![tactic(auto)]

pub mod case;
pub mod goal;
pub mod intern;
pub mod suppose;
pub mod variables;
