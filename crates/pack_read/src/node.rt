// Ground nodes: what each says in the parsed pack.
ghost use Rattle.std.specs.Prelude.{◌<◌, length, get_or};
ghost use Rattle.definition.specs.Pack.{node_of, sort_of};
ghost use Rattle.pack_tables.specs.Catalog.{records_of};
ghost use Rattle.pack_read.specs.Says.{Readable, OfPack};

use crate::body::{body_len, body_word};
use crate::symbol::symbol_output;
use base::id::Ground;
use pack_tables::catalog::Catalog;
use pack_tables::field::Field;

// The head of node `n`, a symbol.
pub fn node_head(pack: &[u8], work: &[u32], c: Catalog, n: Ground) -> u32
    requires { Readable pack.now work.now c × (n.0 < length (records_of work.now c 3)) }
    ensures { OfPack pack.now work.now c (λ P. (node_of P n.0).head) result }
{
    body_word(pack, work, c, Catalog::NODES, n.0 as usize, 0)
}

// How many arguments it has.
pub fn node_arity(pack: &[u8], work: &[u32], c: Catalog, n: Ground) -> usize
    requires { Readable pack.now work.now c × (n.0 < length (records_of work.now c 3)) }
    ensures { OfPack pack.now work.now c (λ P. length (node_of P n.0).args) result }
{
    (body_len(pack, work, c, Catalog::NODES, n.0 as usize) - Field::NODE_ARGUMENTS) / Field::WORD
}

// Its argument `i`, a node.
pub fn node_argument(pack: &[u8], work: &[u32], c: Catalog, n: Ground, i: usize) -> Ground
    requires { (R : Readable pack.now work.now c) × (n.0 < length (records_of work.now c 3)) × (i < length (node_of R.pack n.0).args) }
    ensures { OfPack pack.now work.now c (λ P. get_or (node_of P n.0).args i 0) result.0 }
{
    Ground(body_word(
        pack,
        work,
        c,
        Catalog::NODES,
        n.0 as usize,
        Field::NODE_ARGUMENTS + Field::WORD * i,
    ))
}

// Its sort, that of its head's output.
pub fn node_sort(pack: &[u8], work: &[u32], c: Catalog, n: Ground) -> u32
    requires { (R : Readable pack.now work.now c) × (n.0 < length (records_of work.now c 3)) × ((node_of R.pack n.0).head < length R.pack.symbols) }
    ensures { OfPack pack.now work.now c (λ P. sort_of P n.0) result }
{
    let h = node_head(pack, work, c, n) as usize;
    symbol_output(pack, work, c, h)
}
