// One premise: a copy of its ref's conclusion and its own instance, unified.
ghost use Rattle.class_premises.specs.Buffers.{lent};
ghost use Rattle.class_premises.specs.Joins.{Joining, JoinsTo};
ghost use Rattle.class_premises.specs.Meets.{Meeting, MeetsTo};
ghost use Rattle.class_premises.specs.Takes.{Copying as Reading, CopiesTo, TakingIn, TakesIn};

use crate::building::Building;
use crate::copies::note_copies;
use crate::layout::Layout;
use crate::row::{Row, row_conclusion, row_variables};
use base::id::Node;
use definition::{Buffer, Refusal};
use graph::graph::Graph;
use graph::places::copies_at;
use graph_unify::unify::unify;
use memo::memo::Memo;
use pack_read::rule::pass_terms;
use pack_tables::catalog::Catalog;
use store::nodes::Store;
use term_copy::copy::copy;
use term_copy::node::Copying;
use term_instantiate::terms::instantiate;
use term_lift::lift::Lifted;

// What the premises that are taken come to: the graph and the copies' memo as they are then, the word of the rule behind them, and how
// many variables of copies are noted.
#[derive(Clone, Copy)]
pub struct Reached {
    pub graph: Graph,
    pub memo: Memo,
    pub from: usize,
    pub copies: usize,
}

// A step, its rule and how many variables that has; where the row of the ref's class stands in the class buffer; the word of the rule
// that the premise starts with; how many variables of copies are noted.
#[derive(Clone, Copy)]
pub struct Premise {
    pub step: usize,
    pub rule: usize,
    pub vars: usize,
    pub row: usize,
    pub from: usize,
    pub copies: usize,
}

// A fresh copy: its node, how many words for variables it has, and the copies' memo with it.
#[derive(Clone, Copy)]
pub struct Fresh {
    pub node: Node,
    pub variables: usize,
    pub memo: Memo,
}

// Instance `x` of the premise and a copy are unified, and the copy's variables are noted. A refusal, which is a clash, leaves open what
// work holds then.
fn join_premise(
    work: &mut [u32],
    cells: &[u32],
    l: Layout,
    g: Graph,
    p: Premise,
    f: Fresh,
    x: Node,
    to: usize,
) -> Result<(Reached, Node), Refusal>
    requires { Joining work.old cells.now l g x.0 f.node.0 f.variables p.copies }
    ensures { JoinsTo work.old work.new cells.now l g p f x.0 to result }
{
    let Ok(_) = unify(g, cells, &mut work[l.graph..l.end], x, f.node) else {
        return Err(Refusal::Clash(p.step as u64));
    };
    let list = l.graph + copies_at(cells);
    let noted = note_copies(work, l.variables, f.variables, list, p.copies);
    let reached = Reached {
        graph: g,
        memo: f.memo,
        from: to,
        copies: noted,
    };
    Ok((reached, x))
}

// The premise's instance is put into the graph and unified with a copy. A refusal leaves open what work and the cells hold then.
fn meet_premise(
    pack: &[u8],
    work: &mut [u32],
    cells: &mut [u32],
    c: Catalog,
    l: Layout,
    g: Graph,
    env: &[u32],
    p: Premise,
    f: Fresh,
) -> Result<(Reached, Node), Refusal>
    requires { Meeting pack.now work.old cells.old c l g env.now p f }
    ensures { MeetsTo pack.now work.old work.new cells.old cells.new c l g env.now p f result }
{
    let to = pass_terms(pack, work, c, p.rule, p.vars, p.from, 1);
    let place = l.place(p.rule, p.vars);
    let Some((x, h)) = instantiate(pack, work, cells, c, place, g, env, p.from, to) else {
        return Err(Refusal::Short(Buffer::GRAPH));
    };
    join_premise(work, cells, l, h, p, f, x, to)
}

// A fresh copy of the conclusion of the class whose row stands at `row`; `None` where the cells have no room for it.
fn copy_class(
    work: &mut [u32],
    class: &[u32],
    words: &[u32],
    cells: &mut [u32],
    l: Layout,
    st: Store,
    memo: Memo,
    g: Graph,
    row: usize,
) -> Option<(Node, Graph, Memo)>
    requires { Reading work.old class.now words.now cells.old l st memo g row }
    ensures { CopiesTo work.old work.new class.now words.now cells.old cells.new l st g row result }
{
    let from = row + Row::MARKS;
    let to = from + row_variables(class, row);
    let p = row_conclusion(class, row);
    let tables = Copying {
        index: l.lifted + Lifted::NODE * l.nodes,
        copied: l.copied,
        walk: l.walk,
        variables: l.variables,
        graph: l.graph,
        end: l.end,
    };
    copy(work, words, cells, tables, st, memo, g, &class[from..to], p)
}

// The premise that starts with a word of a rule, whose ref has the class with a row: a copy of the class's conclusion and the premise's
// instance are put into graph `g` and unified, and the copy's variables are noted. A refusal leaves open what work and
// the cells hold then.
pub fn take_premise(
    pack: &[u8],
    work: &mut [u32],
    class: &[u32],
    words: &[u32],
    cells: &mut [u32],
    s: Building,
    memo: Memo,
    g: Graph,
    env: &[u32],
    p: Premise,
) -> Result<(Reached, Node), Refusal>
    requires { TakingIn (lent pack.now class.now words.now cells.old work.old) s memo g env.now p }
    ensures { TakesIn (lent pack.now class.now words.now cells.old work.old) (lent pack.now class.now words.now cells.new work.new) s g env.now p result }
{
    let row = p.row;
    let n = row_variables(class, row);
    let Some((y, h, known)) = copy_class(work, class, words, cells, s.layout, s.store, memo, g, row)
    else {
        return Err(Refusal::Short(Buffer::GRAPH));
    };
    let f = Fresh {
        node: y,
        variables: n,
        memo: known,
    };
    meet_premise(pack, work, cells, s.catalog, s.layout, h, env, p, f)
}
