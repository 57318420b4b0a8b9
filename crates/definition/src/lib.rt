// What is right: document 01 as definitions on lists. No code; the types that code and definitions share.
#![tactic(auto)]

// The refusals of document 01's table, in its order; each but the ninth with its place.
#[derive(Clone, Copy)]
pub enum Refusal {
    // 1: a record cut, misordered or against its form; its byte offset
    Form(u64),
    // 2: over a limit; the record's offset, or 0 for a lent length
    Limit(u64),
    // 3: a step fails
    Step(u64),
    // 4: a goal without a result, or whose result has another judgment
    Goal(u64),
    // 5: a clash as the step's class is made
    Clash(u64),
    // 6: a circle
    Circle(u64),
    // 7: judgments that are no instance
    Instance(u64),
    // 8: a short buffer, by its number
    Short(u64),
    // 9: open variables of several sorts
    Sorts,
    // 10: a goal on a cut predicate
    Cut(u64),
    // 11: a goal whose ground attempt fails
    Ground(u64),
}

// Document 01's buffers: "1 class, 2 pattern, 3 graph, 4 work, 5 proof or shown text, 6 goals".
#[derive(Clone, Copy)]
pub struct Buffer(pub u64);

impl Buffer {
    pub const CLASS: u64 = 1;

    pub const PATTERN: u64 = 2;

    pub const GRAPH: u64 = 3;

    pub const WORK: u64 = 4;

    pub const TEXT: u64 = 5;

    pub const GOALS: u64 = 6;
}

// A number of document 01's table with its place; 0 and 0 for an answer.
#[repr(C)]
#[derive(Clone, Copy)]
pub struct Answer {
    pub code: u64,
    pub place: u64,
}

// The figures of class building, as document 01 counts them; the last four are the histogram's slots.
#[repr(C)]
#[derive(Clone, Copy)]
pub struct Figures {
    pub steps: u64,
    pub classes: u64,
    pub ground_nodes: u64,
    pub pattern_nodes: u64,
    pub class_vars: u64,
    pub flex_vars: u64,
    pub fixed_vars: u64,
    pub subst_entries: u64,
    pub subst_renamings: u64,
    pub single: u64,
    pub few: u64,
    pub tens: u64,
    pub hundreds: u64,
}
