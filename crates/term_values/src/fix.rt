// The ground values by a worklist: each root gets its value once. The pairs still to be taken stand where unification has its own.
ghost use Rattle.std.specs.Prelude.{◌<◌, length};
ghost use Rattle.pack_tables.specs.Catalog.{records_of};
ghost use Rattle.term_values.specs.Words.{Values};
ghost use Rattle.term_values.specs.Pushes.{Pushable, Pushes};
ghost use Rattle.term_values.specs.Gives.{Fresh, GivesTo};
ghost use Rattle.term_values.specs.Takes.{Ready, Takes};
ghost use Rattle.term_values.specs.Fixes.{Fixes};

use crate::values::{Valued, put_pair, put_value, root, value};
use base::id::{Ground, Node, Pattern};
use base::stack::Frame;
use graph::graph::Graph;
use graph::places::pairs_at;
use pack_read::node::{node_argument, node_arity, node_head};
use pack_tables::catalog::Catalog;

// All have their values, or something differs.
#[derive(Clone, Copy)]
pub enum Fixed {
    Done,
    Differs,
}

// The `k` arguments of node `r` and of ground node `n` side by side are put behind `top` other pairs, the first ones on top; behind
// them there are so many pairs.
fn push_arguments(
    pack: &[u8],
    work: &mut [u32],
    cells: &[u32],
    c: Catalog,
    l: Valued,
    g: Graph,
    top: usize,
    r: Node,
    n: Ground,
    k: usize,
) -> usize
    requires { Pushable pack.now work.old cells.now c l g top r.0 n.0 k }
    ensures { Pushes pack.now work.old work.new cells.now c l g top r.0 n.0 result }
{
    let mut on = top;
    for i in (0..k).rev() {
        let x = g.argument(cells, &work[l.at..l.end], r, i);
        let m = node_argument(pack, work, c, n, i);
        put_pair(work, cells, l, on, x, m);
        on += 1;
    }
    on
}

// Root `r`, which has no value, gets the value `n`: how many pairs are left then; none if the two differ.
fn give(
    pack: &[u8],
    work: &mut [u32],
    cells: &[u32],
    c: Catalog,
    l: Valued,
    g: Graph,
    top: usize,
    r: Node,
    n: Ground,
) -> Option<usize>
    requires { Fresh pack.now work.old cells.now c l g top r.0 n.0 }
    ensures { GivesTo pack.now work.old work.new cells.now c l g top r.0 n.0 result }
{
    let head = g.head(cells, &work[l.at..l.end], r);
    if head == Pattern::VAR {
        put_value(work, cells, l, r, n);
        return Some(top);
    }
    if node_head(pack, work, c, n) != head {
        return None;
    }
    let k = g.arity(cells, &work[l.at..l.end], r);
    if node_arity(pack, work, c, n) != k {
        return None;
    }
    put_value(work, cells, l, r, n);
    Some(push_arguments(pack, work, cells, c, l, g, top, r, n, k))
}

// The pair behind `top` others is taken; none if its two differ.
fn take_value(
    pack: &[u8],
    work: &mut [u32],
    cells: &[u32],
    c: Catalog,
    l: Valued,
    g: Graph,
    top: usize,
) -> Option<usize>
    requires { Ready pack.now work.old cells.now c l g top }
    ensures { Takes pack.now work.old work.new cells.now c l g top result }
{
    let at = l.at + pairs_at(cells) + Frame::WORDS * top;
    let x = Node(work[at]);
    let n = Ground(work[at + Frame::SECOND]);
    let r = root(work, cells, l, g, x);
    let Some(m) = value(work, cells, l, r) else {
        return give(pack, work, cells, c, l, g, top, r, n);
    };
    if m.0 != n.0 {
        return None;
    }
    Some(top)
}

// Node `x` gets the ground value `n`, and what is below it what is below `n`.
pub fn fix(
    pack: &[u8],
    work: &mut [u32],
    cells: &[u32],
    c: Catalog,
    l: Valued,
    g: Graph,
    x: Node,
    n: Ground,
) -> Fixed
    requires { Values pack.now work.old cells.now c l g × (x.0 < g.nodes) × (n.0 < length (records_of work.old c 3)) }
    ensures { Fixes pack.now work.old work.new cells.now c l g x.0 n.0 result }
{
    put_pair(work, cells, l, 0, x, n);
    let mut top: usize = 1;
    while 0 < top {
        let Some(more) = take_value(pack, work, cells, c, l, g, top - 1) else {
            return Fixed::Differs;
        };
        top = more;
    }
    Fixed::Done
}
