// The test for circles: a walk along arguments, deepest first. The path stands where unification has its pairs, and behind it a word for
// each node, its colour.
ghost use Rattle.std.specs.Prelude.{◌+◌, ◌<◌, ◌≤◌, length};
ghost use Rattle.graph.specs.Inner.{HoldsInner};
ghost use Rattle.graph_unify.specs.CircleWords.{colours_end, Entering, EntersIn, LookingIn, LooksIn, WalkingIn, AdvancesIn, FinishesIn, IdleIn, WalksIn, TellsIn};

use base::id::{Node, Pattern};
use base::stack::Frame;
use graph::graph::Graph;
use graph::places::{colours_at, pairs_at};

// What a walk knows of a node.
#[derive(Clone, Copy)]
pub struct Colour(pub u32);

impl Colour {
    // Nothing.
    pub const UNSEEN: u32 = 0;
    // It stands on the path.
    pub const OPEN: u32 = 1;
    // Its term ends.
    pub const DONE: u32 = 2;
}

// What an argument comes to: its term ends, it stands on top of the path, or it stood on the path before.
#[derive(Clone, Copy)]
enum Seen {
    Ends,
    Deeper,
    Circle,
}

// Root `y` is put on the path of `top` nodes, which then has so many; a variable ends there and then.
fn enter(g: Graph, cells: &[u32], table: &mut [u32], top: usize, y: Node) -> usize
    requires { Entering cells.now table.old g top y.0 }
    ensures { EntersIn cells.now table.old table.new g top y.0 result }
{
    let colours = colours_at(cells);
    let i = y.0 as usize;
    if g.head(cells, table, y) == Pattern::VAR {
        table[colours + i] = Colour::DONE;
        return top;
    }
    table[colours + i] = Colour::OPEN;
    let at = pairs_at(cells) + Frame::WORDS * top;
    table[at] = y.0;
    table[at + Frame::TAKEN] = 0;
    top + 1
}

// Argument `i` of node `x`, on the path behind `top` others, is looked at.
fn look(g: Graph, cells: &[u32], table: &mut [u32], top: usize, x: Node, i: usize) -> Seen
    requires { LookingIn cells.now table.old g top x.0 i }
    ensures { LooksIn cells.now table.old table.new g top x.0 i result }
{
    let argument = g.argument(cells, table, x, i);
    let y = g.find(cells, table, argument);
    let colours = colours_at(cells);
    let seen = table[colours + y.0 as usize];
    if seen == Colour::DONE {
        return Seen::Ends;
    }
    if seen != Colour::UNSEEN {
        return Seen::Circle;
    }
    let at = pairs_at(cells) + Frame::WORDS * top;
    table[at + Frame::TAKEN] = i as u32 + 1;
    if enter(g, cells, table, top + 1, y) == top + 1 {
        return Seen::Ends;
    }
    Seen::Deeper
}

// The node on the path behind `top` others goes on with its arguments, to one that stands on top from then on or to its own end; none is
// a circle.
fn advance(g: Graph, cells: &[u32], table: &mut [u32], top: usize) -> Option<usize>
    requires { WalkingIn cells.now table.old g (top + 1) }
    ensures { AdvancesIn cells.now table.old table.new g top result }
{
    let at = pairs_at(cells) + Frame::WORDS * top;
    let x = Node(table[at]);
    let n = g.arity(cells, table, x);
    let taken = table[at + Frame::TAKEN] as usize;
    for i in taken..n {
        match look(g, cells, table, top, x, i) {
            Seen::Ends => {}
            Seen::Deeper => {
                return Some(top + 2);
            }
            Seen::Circle => {
                return None;
            }
        }
    }
    let colours = colours_at(cells);
    table[colours + x.0 as usize] = Colour::DONE;
    Some(top)
}

// The nodes on the path are gone through, down to the last one; whether a circle is met.
fn finish(g: Graph, cells: &[u32], table: &mut [u32], start: usize) -> bool
    requires { WalkingIn cells.now table.old g start }
    ensures { FinishesIn cells.now table.old table.new g start result }
{
    let mut top = start;
    while 0 < top {
        let Some(more) = advance(g, cells, table, top - 1) else {
            return true;
        };
        top = more;
    }
    false
}

// Whether a circle is met on the way from node `x`.
fn walk(g: Graph, cells: &[u32], table: &mut [u32], x: Node) -> bool
    requires { IdleIn cells.now table.old g × (x.0 < g.nodes) }
    ensures { WalksIn cells.now table.old table.new g x.0 result }
{
    let root = g.find(cells, table, x);
    let colours = colours_at(cells);
    if table[colours + root.0 as usize] != Colour::UNSEEN {
        return false;
    }
    let top = enter(g, cells, table, 0, root);
    finish(g, cells, table, top)
}

// Whether some node is a part of its own term.
pub fn circular(g: Graph, cells: &[u32], table: &mut [u32]) -> bool
    requires { HoldsInner cells.now table.old g × (colours_end cells.now ≤ length table.old) }
    ensures { TellsIn cells.now table.old table.new g result }
{
    let n = g.nodes;
    let colours = colours_at(cells);
    table[colours..colours + n].fill(0);
    for x in 0..n {
        if walk(g, cells, table, Node(x as u32)) {
            return true;
        }
    }
    false
}
