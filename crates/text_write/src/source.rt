// The nodes of terms: patterns of the store, or ground nodes of the pack.
ghost use Rattle.std.specs.Prelude.{◌≡◌, ◌<◌, length, get_or};
ghost use Rattle.text_write.specs.Source.{Sourced, many_in, node_in, OfSource};

use base::id::{Ground, Pattern};
use pack_read::node::{node_argument, node_arity, node_head};
use pack_tables::catalog::Catalog;
use store::nodes::Store;

// Where nodes are read: the pack's tables, the store with its index's place in work, and which of both is meant.
#[derive(Clone, Copy)]
pub struct Source {
    pub catalog: Catalog,
    pub index: usize,
    pub end: usize,
    pub store: Store,
    pub is_ground: bool,
}

// The head of node `x`.
pub fn head_of(pack: &[u8], work: &[u32], words: &[u32], s: Source, x: u32) -> u32
    requires { Sourced pack.now work.now words.now s × (x < many_in work.now words.now s) }
    ensures { OfSource pack.now work.now s (λ P. result ≡ (node_in P words.now s x).head) }
{
    if s.is_ground {
        return node_head(pack, work, s.catalog, Ground(x));
    }
    s.store.head(&work[s.index..s.end], words, Pattern(x))
}

// How many arguments it has.
pub fn arity_of(pack: &[u8], work: &[u32], words: &[u32], s: Source, x: u32) -> usize
    requires { Sourced pack.now work.now words.now s × (x < many_in work.now words.now s) }
    ensures { OfSource pack.now work.now s (λ P. result ≡ length (node_in P words.now s x).args) }
{
    if s.is_ground {
        return node_arity(pack, work, s.catalog, Ground(x));
    }
    s.store.arity(&work[s.index..s.end], words, Pattern(x))
}

// Its argument `i`; for a variable its number and its sort.
pub fn argument_of(pack: &[u8], work: &[u32], words: &[u32], s: Source, x: u32, i: usize) -> u32
    requires { (S : Sourced pack.now work.now words.now s) × (x < many_in work.now words.now s) × (i < length (node_in S.held.pack words.now s x).args) }
    ensures { OfSource pack.now work.now s (λ P. result ≡ get_or (node_in P words.now s x).args i 0) }
{
    if s.is_ground {
        return node_argument(pack, work, s.catalog, Ground(x), i).0;
    }
    s.store
        .argument(&work[s.index..s.end], words, Pattern(x), i)
}
