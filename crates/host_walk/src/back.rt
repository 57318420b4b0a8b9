// A node of a graph read back into a store, with all variables numbered.
ghost use Rattle.std.specs.Prelude.{◌+◌, ◌≤◌, ◌<◌, length};
ghost use Rattle.term_readback.specs.Words.{table_end};
ghost use Rattle.host_walk.specs.Back.{Standing, Blank, Backs};

use base::id::{Node, Pattern};
use definition::Answer;
use graph::graph::Graph;
use graph::places::values_at;
use pack_tables::catalog::Catalog;
use store::nodes::Store;
use term_lift::lift::Lifted;
use term_readback::resolve::{clear, resolve};
use term_readback::table::{Reading, Table};

// No node has a ground value.
fn no_values(work: &mut [u32], cells: &[u32], t: Table, g: Graph)
    requires { (t.at + table_end cells.now ≤ t.end) × (t.end ≤ length work.old) × (g.nodes ≤ length cells.now) }
    ensures { Blank work.old work.new cells.now t g }
{
    let from = t.at + values_at(cells);
    let end = from + g.nodes;
    work[from..end].fill(0);
}

// Node `x` read back, with nothing read back before: its pattern, the store that has it, how many variables are numbered and how many
// cells the graph has.
pub fn read_back(
    pack: &[u8],
    work: &mut [u32],
    words: &mut [u32],
    cells: &[u32],
    c: Catalog,
    l: Lifted,
    t: Table,
    st: Store,
    g: Graph,
    x: Node,
) -> Result<(Pattern, Store, usize, usize), Answer>
    requires { Standing pack.now work.old words.old cells.now c l t st g × (x.0 < g.nodes) }
    ensures { Backs pack.now work.old words.old words.new cells.now c l t st g x.0 result }
{
    no_values(work, cells, t, g);
    clear(work, cells, t, g);
    let reading = Reading {
        catalog: c,
        lifted: l,
        table: t,
        graph: g,
        everyone: true,
    };
    let Some((p, more, n)) = resolve(pack, work, words, cells, reading, st, 0, x) else {
        return Err(Answer { code: 8, place: 2 });
    };
    Ok((p, more, n, g.used))
}
