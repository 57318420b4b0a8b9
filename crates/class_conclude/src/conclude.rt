// The conclusion of a step's rule, behind its premises: put into the graph and read back.
ghost use Rattle.class_conclude.specs.Top.{ToppingAt};
ghost use Rattle.class_conclude.specs.Counted.{TopReadsAt};
ghost use Rattle.class_conclude.specs.Concludes.{Concluding, Concludes};

use crate::fixed::count_fixed;
use crate::top::{Wanted, read_back};
use base::id::Pattern;
use class_premises::layout::Layout;
use definition::{Buffer, Refusal};
use graph::graph::Graph;
use pack_read::rule::pass_terms;
use pack_tables::catalog::Catalog;
use store::nodes::Store;
use term_instantiate::terms::instantiate;
use term_readback::table::Table;

// A rule and how many variables it has; the word of it that its conclusion starts with; how many variables of copies are noted.
#[derive(Clone, Copy)]
pub struct Ending {
    pub rule: usize,
    pub vars: usize,
    pub from: usize,
    pub copies: usize,
}

// What was read: the conclusion's pattern, how many variables are numbered, and what figures count.
#[derive(Clone, Copy)]
pub struct Concluded {
    pub pattern: Pattern,
    pub numbered: usize,
    pub entries: usize,
    pub renamings: usize,
    pub fixed: usize,
}

// The node wanted and the variables of copies read back, and the fixed variables counted: the graph and the store as they are then, and
// what was read. It is refused where the words have no room.
fn read_top(
    pack: &[u8],
    work: &mut [u32],
    words: &mut [u32],
    cells: &[u32],
    c: Catalog,
    l: Layout,
    st: Store,
    g: Graph,
    w: Wanted,
) -> Result<(Graph, Store, Concluded), Refusal>
    requires { ToppingAt pack.now work.old words.old cells.now c l st g w }
    ensures { TopReadsAt pack.now work.old words.old work.new words.new cells.now c l st g w result }
{
    let Some((more, p, n, k)) = read_back(pack, work, words, cells, c, l, st, g, w) else {
        return Err(Refusal::Short(Buffer::PATTERN));
    };
    let t = Table {
        at: l.graph,
        end: l.end,
    };
    let fixed = count_fixed(work, cells, t, g, n);
    let read = Concluded {
        pattern: p,
        numbered: n,
        entries: w.copies,
        renamings: k,
        fixed,
    };
    Ok((g, more, read))
}

// The conclusion's instance is put into the graph and read back, then the variables of the copies: the graph and the store as they are
// then, and what was read. It is refused where the cells or the words have no room.
pub fn conclude(
    pack: &[u8],
    work: &mut [u32],
    words: &mut [u32],
    cells: &mut [u32],
    c: Catalog,
    l: Layout,
    st: Store,
    g: Graph,
    env: &[u32],
    q: Ending,
) -> Result<(Graph, Store, Concluded), Refusal>
    requires { Concluding pack.now work.old words.old cells.old c l st g env.now q }
    ensures { Concludes pack.now work.old words.old cells.old work.new words.new cells.new c l st g env.now q result }
{
    let to = pass_terms(pack, work, c, q.rule, q.vars, q.from, 1);
    let place = l.place(q.rule, q.vars);
    let Some((x, h)) = instantiate(pack, work, cells, c, place, g, env, q.from, to) else {
        return Err(Refusal::Short(Buffer::GRAPH));
    };
    let wanted = Wanted {
        before: g.nodes,
        node: x,
        copies: q.copies,
    };
    read_top(pack, work, words, cells, c, l, st, h, wanted)
}
