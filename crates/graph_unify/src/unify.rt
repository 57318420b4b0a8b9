// Unification by a worklist of pairs.
ghost use Rattle.std.specs.Prelude.{◌≡◌, ◌<◌, ◌≤◌, length};
ghost use Rattle.graph.specs.Stack.{pairs_end, left_word, right_word};
ghost use Rattle.graph.specs.Inner.{HoldsInner};
ghost use Rattle.graph_unify.specs.Unifies.{Ready, Takes, Unifies};

use crate::meet::meet;
use crate::pairs::Pairs;
use base::id::Node;
use graph::graph::Graph;
use graph::places::pairs_at;

// The pair behind `top` others is taken: the roots of its two nodes, `x` and `y`, meet; none is a clash.
fn take_pair(
    g: Graph,
    cells: &[u32],
    table: &mut [u32],
    top: usize,
    x: Node,
    y: Node,
) -> Option<Pairs>
    requires { Ready cells.now table.old g top × (pairs_end cells.now ≤ length table.old) × (x.0 ≡ left_word cells.now table.old top) × (y.0 ≡ right_word cells.now table.old top) }
    ensures { Takes cells.now table.old table.new g top result }
{
    let left = g.find(cells, table, x);
    let right = g.find(cells, table, y);
    meet(g, cells, table, top, left, right)
}

// Nodes `x` and `y` are made equal, the last arguments first. The pairs still to be taken stand behind the table's rows. How many were
// taken: `Ok` if the two are joined, `Err` at a clash.
pub fn unify(g: Graph, cells: &[u32], table: &mut [u32], x: Node, y: Node) -> Result<usize, usize>
    requires { HoldsInner cells.now table.old g × (x.0 < g.nodes) × (y.0 < g.nodes) × (pairs_end cells.now ≤ length table.old) }
    ensures { Unifies cells.now table.old table.new g x.0 y.0 result }
{
    let rows = pairs_at(cells);
    table[rows] = x.0;
    table[rows + 1] = y.0;
    let mut p = Pairs {
        top: 1,
        left: x,
        right: y,
    };
    let mut taken: usize = 0;
    while 0 < p.top {
        let Some(more) = take_pair(g, cells, table, p.top - 1, p.left, p.right) else {
            return Err(taken + 1);
        };
        p = more;
        taken += 1;
    }
    Ok(taken)
}
