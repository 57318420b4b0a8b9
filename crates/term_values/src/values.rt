// The words that the values stand in, and the table that they stand behind.
ghost use Rattle.std.specs.Prelude.{◌<◌, ◌≤◌, length};
ghost use Rattle.graph.specs.Links.{Holds};
ghost use Rattle.term_values.specs.Words.{table_in, Placed};
ghost use Rattle.term_values.specs.Stores.{ValueIs, PutsValue, PutsPair, FindsRoot, Clears};
ghost use Rattle.definition.specs.Store.{nothing};

use base::id::{Ground, Node};
use base::stack::Frame;
use graph::graph::Graph;
use graph::places::{pairs_at, values_at};

// Where the graph's table stands in work: rows, behind them the pairs, behind these a colour for each node, and behind these a word
// for each node, its ground value and one or 0.
#[derive(Clone, Copy)]
pub struct Valued {
    pub at: usize,
    pub end: usize,
}

// The value of node `x`, if it has one.
pub fn value(work: &[u32], cells: &[u32], l: Valued, x: Node) -> Option<Ground>
    requires { Placed cells.now work.now l × (x.0 < length cells.now) }
    ensures { ValueIs cells.now (table_in l work.now) x.0 result }
{
    let at = l.at + values_at(cells) + x.0 as usize;
    let word = work[at];
    if word == 0 {
        return None;
    }
    Some(Ground(word - 1))
}

// Node `x` has the value `n` from now on.
pub fn put_value(work: &mut [u32], cells: &[u32], l: Valued, x: Node, n: Ground)
    requires { Placed cells.now work.old l × (x.0 < length cells.now) × (n.0 < nothing) }
    ensures { PutsValue cells.now work.old work.new l x.0 n.0 }
{
    let at = l.at + values_at(cells) + x.0 as usize;
    work[at] = n.0 + 1;
}

// Node `x` and ground node `n` are put behind `top` other pairs.
pub fn put_pair(work: &mut [u32], cells: &[u32], l: Valued, top: usize, x: Node, n: Ground)
    requires { Placed cells.now work.old l × (top ≤ length cells.now) }
    ensures { PutsPair cells.now work.old work.new l top x.0 n.0 }
{
    let at = l.at + pairs_at(cells) + Frame::WORDS * top;
    work[at] = x.0;
    work[at + Frame::SECOND] = n.0;
}

// The root of node `x`.
pub fn root(work: &mut [u32], cells: &[u32], l: Valued, g: Graph, x: Node) -> Node
    requires { Placed cells.now work.old l × Holds cells.now (table_in l work.old) g × (x.0 < g.nodes) }
    ensures { FindsRoot cells.now work.old work.new l g x.0 result.0 }
{
    g.find(cells, &mut work[l.at..l.end], x)
}

// No node has a value from now on.
pub fn clear(work: &mut [u32], cells: &[u32], l: Valued, g: Graph)
    requires { Placed cells.now work.old l × Holds cells.now (table_in l work.old) g }
    ensures { Clears cells.now work.old work.new l g }
{
    let from = l.at + values_at(cells);
    work[from..from + g.nodes].fill(0);
}
