// The instance of a rule's conclusion read back, then the variables of the copies.
ghost use Rattle.std.specs.Prelude.{◌+◌, ◌≤◌, length};
ghost use Rattle.term_readback.specs.Words.{table_end};
ghost use Rattle.class_conclude.specs.Top.{Prepares, ToppingAt};
ghost use Rattle.class_conclude.specs.Back.{BackReadsAt};

use crate::entries::read_entries;
use base::id::{Node, Pattern};
use class_premises::layout::Layout;
use graph::graph::Graph;
use graph::places::values_at;
use pack_tables::catalog::Catalog;
use store::nodes::Store;
use term_readback::resolve::{clear, resolve};
use term_readback::table::{Reading, Table};

// What is read back: a node, and so many variables of copies. Nodes from `before` on have no value.
#[derive(Clone, Copy)]
pub struct Wanted {
    pub before: usize,
    pub node: Node,
    pub copies: usize,
}

// Nodes from `before` on have no value, and nothing was read back.
fn prepare(work: &mut [u32], cells: &[u32], l: Layout, before: usize, g: Graph)
    requires { (l.graph + table_end cells.now ≤ l.end) × (l.end ≤ length work.old) × (before ≤ g.nodes) × (g.nodes ≤ length cells.now) }
    ensures { Prepares work.old work.new cells.now l before g }
{
    let values = l.graph + values_at(cells);
    let from = values + before;
    let end = values + g.nodes;
    work[from..end].fill(0);
    let t = Table {
        at: l.graph,
        end: l.end,
    };
    clear(work, cells, t, g);
}

// The node wanted with all its variables numbered, then the variables of copies: the store as it is then, the node's pattern, how many
// variables are numbered, and how many of the copies' are renamed. `None` where the words have no room.
pub fn read_back(
    pack: &[u8],
    work: &mut [u32],
    words: &mut [u32],
    cells: &[u32],
    c: Catalog,
    l: Layout,
    st: Store,
    g: Graph,
    w: Wanted,
) -> Option<(Store, Pattern, usize, usize)>
    requires { ToppingAt pack.now work.old words.old cells.now c l st g w }
    ensures { BackReadsAt pack.now work.old words.old work.new words.new cells.now c l st g w result }
{
    prepare(work, cells, l, w.before, g);
    let t = Table {
        at: l.graph,
        end: l.end,
    };
    let reading = Reading {
        catalog: c,
        lifted: l.lifting(),
        table: t,
        graph: g,
        everyone: true,
    };
    let (p, more, n) = resolve(pack, work, words, cells, reading, st, 0, w.node)?;
    let (last, m, k) = read_entries(pack, work, words, cells, c, l, more, g, n, w.copies)?;
    Some((last, p, m, k))
}
