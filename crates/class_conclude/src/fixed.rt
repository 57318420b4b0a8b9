// How many variables are fixed: roots that are neither flexible nor numbered and have a ground value. The numbered ones get a colour.
ghost use Rattle.class_conclude.specs.FixedMarks.{MarkAsked, Marks};
ghost use Rattle.class_conclude.specs.Fixed.{FixedAsked, FixesOne, ColouredIn, FixesAll};
ghost use Rattle.class_conclude.specs.FixedWhole.{NumbersIn, CountsFixed};

use base::id::{Node, Pattern};
use graph::graph::Graph;
use graph::places::{colours_at, numbers_at, values_at};
use term_readback::table::{Table, put_word, word_at};

// Each of the numbered variables gets a colour.
fn mark_numbered(work: &mut [u32], cells: &[u32], t: Table, numbered: usize)
    requires { MarkAsked work.old cells.now t numbered }
    ensures { Marks work.old work.new cells.now t numbered }
{
    let colours = colours_at(cells);
    let numbers = numbers_at(cells);
    for i in 0..numbered {
        let x = word_at(work, t, numbers + i) as usize;
        put_word(work, t, colours + x, 1);
    }
}

// 1 if node `x` is fixed, else 0.
fn fixes(work: &[u32], cells: &[u32], t: Table, g: Graph, x: Node) -> usize
    requires { FixedAsked work.now cells.now t g x.0 }
    ensures { FixesOne work.now cells.now t g x.0 result }
{
    let i = x.0 as usize;
    if !g.is_root(cells, &work[t.at..t.end], x) {
        return 0;
    }
    if g.head(cells, &work[t.at..t.end], x) != Pattern::VAR {
        return 0;
    }
    if g.is_flexible(cells, &work[t.at..t.end], x) {
        return 0;
    }
    if word_at(work, t, values_at(cells) + i) == 0 {
        return 0;
    }
    if word_at(work, t, colours_at(cells) + i) != 0 {
        return 0;
    }
    1
}

// How many nodes are.
fn count_coloured(work: &[u32], cells: &[u32], t: Table, g: Graph) -> usize
    requires { ColouredIn work.now cells.now t g }
    ensures { FixesAll work.now cells.now t g result }
{
    let mut k: usize = 0;
    for x in 0..g.nodes {
        k += fixes(work, cells, t, g, Node(x as u32));
    }
    k
}

// The same where the numbered variables stand in the table, so many; the colours' words are free.
pub fn count_fixed(work: &mut [u32], cells: &[u32], t: Table, g: Graph, numbered: usize) -> usize
    requires { NumbersIn work.old cells.now t g numbered }
    ensures { CountsFixed work.old work.new cells.now t g numbered result }
{
    let from = t.at + colours_at(cells);
    let end = from + g.nodes;
    work[from..end].fill(0);
    mark_numbered(work, cells, t, numbered);
    count_coloured(work, cells, t, g)
}
