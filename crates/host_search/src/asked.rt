// What the call is asked for.
ghost use Rattle.std.specs.Prelude.{◌≡◌};
ghost use Rattle.pack_read.specs.Held.{Held, OfHeld};
ghost use Rattle.host_search.specs.Searched.{is_asked};

use base::id::Ground;
use emit_search::failed::Depth;
use pack_read::node::node_sort;
use pack_tables::catalog::Catalog;

// A judgment, by its ground node; at what depth the search for it begins; and L's name as its number of underscores.
#[derive(Clone, Copy)]
pub struct Query {
    pub node: u32,
    pub depth: u32,
    pub name: u32,
}

// Whether there is such a judgment and such a depth.
pub fn is_asked(pack: &[u8], work: &[u32], c: Catalog, q: Query) -> bool
    requires { Held pack.now work.now c }
    ensures { OfHeld pack.now work.now c (λ P. result ≡ is_asked P q.node q.depth) }
{
    if Depth::MOST + 1 < q.depth {
        return false;
    }
    if c.count(work, Catalog::NODES) <= q.node as usize {
        return false;
    }
    node_sort(pack, work, c, Ground(q.node)) == Ground::PROP
}
