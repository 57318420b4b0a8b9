// The pairs that unification still has to take.
ghost use Rattle.std.specs.Prelude.{◌≡◌, ◌+◌, ◌*◌, ◌≤◌, ◌<◌, length};
ghost use Rattle.graph.specs.Cells.{rows_end};
ghost use Rattle.graph.specs.Links.{Holds};
ghost use Rattle.graph_unify.specs.Pairs.{Topmost, PairsRoom, PairsOn};
ghost use Rattle.definition.specs.Store.{nothing};

use base::id::Node;
use base::stack::Frame;
use graph::graph::Graph;
use graph::places::pairs_at;

// So many pairs, and the nodes of the last one if there is one. It is on the stack too; here it need not be waited for.
#[derive(Clone, Copy)]
pub struct Pairs {
    pub top: usize,
    pub left: Node,
    pub right: Node,
}

// The pairs on the stack behind the rows.
pub fn top_pair(cells: &[u32], table: &[u32], top: usize) -> Pairs
    requires { (rows_end cells.now + 2 * top ≤ length table.now) × (2 * top ≤ 2 * length cells.now + 2) × (length cells.now < nothing) }
    ensures { (result.top ≡ top) × Topmost cells.now table.now result }
{
    if top == 0 {
        return Pairs {
            top: 0,
            left: Node(0),
            right: Node(0),
        };
    }
    let at = pairs_at(cells) + Frame::WORDS * (top - 1);
    Pairs {
        top,
        left: Node(table[at]),
        right: Node(table[at + Frame::SECOND]),
    }
}

// The arguments of nodes `x` and `y` side by side are put on the stack behind the rows, the last ones on top.
pub fn push_pairs(g: Graph, cells: &[u32], table: &mut [u32], top: usize, x: Node, y: Node) -> Pairs
    requires { Holds cells.now table.old g × (x.0 < g.nodes) × (y.0 < g.nodes) × PairsRoom cells.now table.old top x.0 }
    ensures { PairsOn cells.now table.old table.new g top x.0 y.0 result.top × Topmost cells.now table.new result }
{
    let a = g.arity(cells, table, x);
    let b = g.arity(cells, table, y);
    let n = a.min(b);
    let rows = pairs_at(cells);
    let mut left = Node(0);
    let mut right = Node(0);
    for i in 0..n {
        let at = rows + Frame::WORDS * (top + i);
        left = g.argument(cells, table, x, i);
        right = g.argument(cells, table, y, i);
        table[at] = left.0;
        table[at + Frame::SECOND] = right.0;
    }
    if n == 0 {
        return top_pair(cells, table, top);
    }
    Pairs {
        top: top + n,
        left,
        right,
    }
}
