// Where lifting's words stand in work, and an empty store behind them.
ghost use Rattle.std.specs.Prelude.{◌≤◌, ◌<◌, length};
ghost use Rattle.pack_read.specs.Held.{Held};
ghost use Rattle.host_walk.specs.Places.{Sized, Lays, Stores};
ghost use Rattle.definition.specs.Store.{nothing};

use pack_tables::catalog::Catalog;
use store::nodes::Store;
use term_lift::lift::Lifted;

// A store of patterns, with the pack's tables and lifting's.
#[derive(Clone, Copy)]
pub struct Stock {
    pub catalog: Catalog,
    pub lifted: Lifted,
    pub store: Store,
}

// Lifting's words stand behind the pack's tables and the marks of its cuts, with the store's index behind them.
pub fn lifting(work: &[u32], words: &[u32], c: Catalog) -> Lifted
    requires { Sized work.now (length words.now) c }
    ensures { Lays work.now (length words.now) c result }
{
    let at = c.at + Catalog::TABLES * (Catalog::RECORD * c.cap + Catalog::MORE) + c.cap;
    let nodes = c.count(work, Catalog::NODES);
    let end = at + Lifted::NODE * nodes + (Store::INDEX * (words.len() / 2) + 1);
    Lifted {
        at: at,
        nodes: nodes,
        end: end,
    }
}

// A store without nodes, and nothing is lifted.
pub fn open_store(pack: &[u8], work: &mut [u32], words: &[u32], c: Catalog, l: Lifted) -> Store
    requires { Held pack.now work.old c × Lays work.old (length words.now) c l × (l.end ≤ length work.old) × (length words.now < nothing) }
    ensures { Stores pack.now work.old work.new words.now c l result }
{
    let from = l.at + Lifted::NODE * l.nodes;
    let end = l.end;
    let st = Store::new(&mut work[from..end], words);
    l.clear(work);
    st
}
