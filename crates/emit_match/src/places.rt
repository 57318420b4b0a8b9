// Where a rule is matched.
use pack_tables::catalog::Catalog;
use store::nodes::Store;

// What is matched, and where in work: the values and the stack stand behind the tables and the store's index.
#[derive(Clone, Copy)]
pub struct Matching {
    // The pack's tables.
    pub catalog: Catalog,
    // The store, whose words are no part of work.
    pub store: Store,
    // Where the store's index starts.
    pub index: usize,
    // Where it ends.
    pub end: usize,
    // Where the values start: a word for each variable that a rule can have, 0 for none, else the pattern and one.
    pub values: usize,
    // Where the stack of the patterns that wait starts: a word for each that a rule can have.
    pub stack: usize,
}
