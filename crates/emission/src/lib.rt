// What is right of emission: document 01's "Proof lines and goal lines" as definitions on lists. No code; the type that code shares.
#![tactic(auto)]

// What emission counts: goals written open, goals written ground; step, hyp and induct lines; induct lines; def lines.
#[repr(C)]
#[derive(Clone, Copy)]
pub struct Emitted {
    pub open_goals: u64,
    pub rigid_goals: u64,
    pub steps: u64,
    pub inductions: u64,
    pub definitions: u64,
}
