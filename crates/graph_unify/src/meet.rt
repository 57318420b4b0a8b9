// Two roots meet.
ghost use Rattle.graph.specs.Links.{Holds};
ghost use Rattle.graph_unify.specs.Pairs.{PairsRoom};
ghost use Rattle.graph_unify.specs.Meets.{Rooted, Meets};

use crate::pairs::{Pairs, push_pairs, top_pair};
use base::id::{Node, Pattern};
use graph::graph::Graph;

// Nodes `x` and `y`, which have no link, are made equal, as far as that can be said of them alone; none is a clash.
pub fn meet(
    g: Graph,
    cells: &[u32],
    table: &mut [u32],
    top: usize,
    x: Node,
    y: Node,
) -> Option<Pairs>
    requires { Holds cells.now table.old g × Rooted table.old g x.0 × Rooted table.old g y.0 × PairsRoom cells.now table.old top x.0 }
    ensures { Meets cells.now table.old table.new g top x.0 y.0 result }
{
    if x.0 == y.0 {
        return Some(top_pair(cells, table, top));
    }
    if g.is_free(cells, table, x) {
        g.bind(cells, table, x, y);
        return Some(top_pair(cells, table, top));
    }
    if g.is_free(cells, table, y) {
        g.bind(cells, table, y, x);
        return Some(top_pair(cells, table, top));
    }
    let head = g.head(cells, table, x);
    if head == Pattern::VAR {
        return None;
    }
    if g.head(cells, table, y) != head {
        return None;
    }
    let left = push_pairs(g, cells, table, top, x, y);
    g.join(cells, table, x, y);
    Some(left)
}
