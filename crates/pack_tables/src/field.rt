// Where the fields of a record stand in its body, in bytes: "all fields little-endian, u32 unless said".

#[derive(Clone, Copy)]
pub struct Field(pub usize);

impl Field {
    // A u32.
    pub const WORD: usize = 4;

    // "symbol: output sort …, u16 arity, input sorts, name".
    pub const SYMBOL_ARITY: usize = 4;

    pub const SYMBOL_INPUTS: usize = 6;

    // "rule: u16 variables, u16 premises, the variables' sorts, then premises and conclusion …, name".
    pub const RULE_PREMISES: usize = 2;

    pub const RULE_SORTS: usize = 4;

    // "ground node: head, arguments".
    pub const NODE_ARGUMENTS: usize = 4;

    // "step: rule, judgment node, refs".
    pub const STEP_JUDGMENT: usize = 4;

    pub const STEP_REFS: usize = 8;

    // "goal: judgment node, name".
    pub const GOAL_NAME: usize = 4;

    // "result: step, name".
    pub const RESULT_NAME: usize = 4;

    // "cut: predicate, output positions".
    pub const CUT_OUTPUTS: usize = 4;

    // "abstract …: constructor, a position".
    pub const ABSTRACT_POSITION: usize = 4;
}
