// Document 01's limits.

// "Most: 256 sorts, 4,096 symbols, arity 16, 4,096 rules, 64 variables, 16 premises and 256 prefix words a rule, 2^24 bytes or cells a
// buffer, 2^30 words for work"; a name has 1 to 64 bytes.
#[derive(Clone, Copy)]
pub struct Limit(pub usize);

impl Limit {
    pub const SORTS: usize = 256;

    pub const SYMBOLS: usize = 4096;

    pub const ARITY: usize = 16;

    pub const RULES: usize = 4096;

    pub const VARIABLES: usize = 64;

    pub const PREMISES: usize = 16;

    pub const WORDS: usize = 256;

    pub const NAME: usize = 64;
    // A node's key: its head and its arguments.
    pub const KEY: usize = 17;

    pub const CELLS: usize = 16777216;

    pub const WORK: usize = 1073741824;
}
