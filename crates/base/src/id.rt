// The numbers of nodes, of three kinds that are never mixed, and the numbers that are no node's.

// A ground node of the pack.
#[derive(Clone, Copy)]
pub struct Ground(pub u32);

// A node of the pattern store.
#[derive(Clone, Copy)]
pub struct Pattern(pub u32);

// A node of the term graph.
#[derive(Clone, Copy)]
pub struct Node(pub u32);

impl Ground {
    // In place of an output sort: the head is a predicate, the node a judgment.
    pub const PROP: u32 = 4294967295;
    // No ground node: an application of the term graph has it for its sort.
    pub const NONE: u32 = 4294967295;
}

impl Pattern {
    // In place of a head: the node is a variable, its arguments a number and a sort.
    pub const VAR: u32 = 4294967294;
    // No pattern.
    pub const NONE: u32 = 4294967295;
}

impl Node {
    // No node.
    pub const NONE: u32 = 4294967295;
}

// A prefix word of a rule: a symbol's number, or a variable's behind VAR.
#[derive(Clone, Copy)]
pub struct Prefix(pub u32);

impl Prefix {
    // "2^31 + variable number": the first variable.
    pub const VAR: u32 = 2147483648;
}
