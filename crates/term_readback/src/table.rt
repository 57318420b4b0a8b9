// The words that reading back has in work, and what it asks of single nodes.
ghost use Rattle.std.specs.Prelude.{◌≡◌, ◌+◌, ◌-◌, ◌≤◌, ◌<◌, length, get_or, set};
ghost use Rattle.term_readback.specs.Words.{table_in};
ghost use Rattle.term_readback.specs.Asked.{Asking, Arguing, Rooted, CountOf, NumbersOf};
ghost use Rattle.term_readback.specs.Keys.{Ripe, Keyed};
ghost use Rattle.definition.specs.Pack.{most_arity};

use base::id::{Node, Pattern};
use graph::graph::Graph;
use graph::places::patterns_at;
use pack_tables::catalog::Catalog;
use term_lift::lift::Lifted;

// Where the graph's table stands in work: rows, behind them the pairs, here the walk's stack, behind these a colour for each node, then
// for each its ground value and one or 0, then the pattern that it was read back as and one or 0, then the variable of each number.
#[derive(Clone, Copy)]
pub struct Table {
    pub at: usize,
    pub end: usize,
}

// What reading back has at hand: where the pack's tables, lifting's and the graph's stand, the graph, and whether all its variables get a
// number.
#[derive(Clone, Copy)]
pub struct Reading {
    pub catalog: Catalog,
    pub lifted: Lifted,
    pub table: Table,
    pub graph: Graph,
    pub everyone: bool,
}

// Word `i` of the table.
pub fn word_at(work: &[u32], t: Table, i: usize) -> u32
    requires { (t.at + i < t.end) × (t.end ≤ length work.now) }
    ensures { result ≡ get_or (table_in t work.now) i 0 }
{
    work[t.at + i]
}

// Word `i` of the table becomes `v`.
pub fn put_word(work: &mut [u32], t: Table, i: usize, v: u32)
    requires { (t.at + i < t.end) × (t.end ≤ length work.old) }
    ensures { work.new ≡ set work.old (t.at + i) v }
{
    work[t.at + i] = v;
}

// The number that a word says; 0 where it says none.
pub fn said(word: u32) -> u32
    ensures { result ≡ word - 1 }
{
    word.saturating_sub(1)
}

// How many arguments' roots are to be read back ahead of root `x`: a variable has none.
pub fn count(work: &[u32], cells: &[u32], t: Table, g: Graph, x: Node) -> usize
    requires { Asking cells.now work.now t g x.0 }
    ensures { CountOf cells.now work.now t g x.0 result }
{
    if g.head(cells, &work[t.at..t.end], x) == Pattern::VAR {
        return 0;
    }
    g.arity(cells, &work[t.at..t.end], x)
}

// Whether variable `x` gets a number: if all do, or if it is flexible.
pub fn numbers(work: &[u32], cells: &[u32], t: Table, g: Graph, x: Node, everyone: bool) -> bool
    requires { Asking cells.now work.now t g x.0 }
    ensures { NumbersOf cells.now work.now t g x.0 everyone result }
{
    if everyone {
        return true;
    }
    g.is_flexible(cells, &work[t.at..t.end], x)
}

// The root of argument `i` of node `x`.
pub fn argument_root(work: &mut [u32], cells: &[u32], t: Table, g: Graph, x: Node, i: usize) -> Node
    requires { Arguing cells.now work.old t g x.0 i }
    ensures { Rooted cells.now work.old work.new t g x.0 i result.0 }
{
    let y = g.argument(cells, &work[t.at..t.end], x, i);
    g.find(cells, &mut work[t.at..t.end], y)
}

// The head of root `x`, then what its arguments' roots were read back as; how many words these are.
pub fn key_of(
    work: &mut [u32],
    cells: &[u32],
    t: Table,
    g: Graph,
    x: Node,
    key: &mut [u32],
) -> usize
    requires { Ripe cells.now work.old t g x.0 × (length key.old ≡ most_arity + 1) }
    ensures { Keyed cells.now work.old work.new t g x.0 key.new result }
{
    let patterns = patterns_at(cells);
    let k = g.arity(cells, &work[t.at..t.end], x);
    key[0] = g.head(cells, &work[t.at..t.end], x);
    for i in 0..k {
        let r = argument_root(work, cells, t, g, x, i);
        key[i + 1] = word_at(work, t, patterns + r.0 as usize) - 1;
    }
    k + 1
}
