// A rule's term in the graph, from its prefix words, the last one first: the nodes of the terms behind a word stand on a stack that
// grows towards its front, so that a symbol's arguments stand there in their order.
ghost use Rattle.term_instantiate.specs.Building.{Taking, Takes, Asked, Instantiates};

use base::id::{Node, Prefix};
use base::limit::Limit;
use graph::graph::Graph;
use pack_read::rule::rule_word;
use pack_read::symbol::symbol_arity;
use pack_tables::catalog::Catalog;

// The rule, how many variables it has, and where the graph's table stands in work.
#[derive(Clone, Copy)]
pub struct Place {
    pub rule: usize,
    pub vars: usize,
    pub at: usize,
    pub end: usize,
}

// Word `i` of the rule: a variable's node is the environment's, a symbol is a node more over the first nodes on the stack. None where the
// cells have no room.
fn take_word(
    pack: &[u8],
    work: &mut [u32],
    cells: &mut [u32],
    c: Catalog,
    l: Place,
    g: Graph,
    env: &[u32],
    stack: &mut [u32],
    top: usize,
    i: usize,
) -> Option<(usize, Graph)>
    requires { Taking pack.now work.old cells.old c l g env.now stack.old top i }
    ensures { Takes pack.now work.old work.new cells.old cells.new c l g env.now stack.old stack.new top i result }
{
    let w = rule_word(pack, work, c, l.rule, l.vars, i);
    if Prefix::VAR <= w {
        let k = (w - Prefix::VAR) as usize;
        stack[top - 1] = env[k];
        return Some((top - 1, g));
    }
    let n = symbol_arity(pack, work, c, w as usize);
    let last = top + n;
    let (x, h) = g.push(cells, &mut work[l.at..l.end], w, &stack[top..last])?;
    stack[last - 1] = x.0;
    Some((last - 1, h))
}

// The term whose words are those of the rule from `from` to `to`, with the environment's nodes for its variables; none where the cells
// have no room.
pub fn instantiate(
    pack: &[u8],
    work: &mut [u32],
    cells: &mut [u32],
    c: Catalog,
    l: Place,
    g: Graph,
    env: &[u32],
    from: usize,
    to: usize,
) -> Option<(Node, Graph)>
    requires { Asked pack.now work.old cells.old c l g env.now from to }
    ensures { Instantiates pack.now work.old work.new cells.old cells.new c l g env.now from to result }
{
    let mut stack = [0; Limit::WORDS];
    let mut top: usize = Limit::WORDS;
    let mut h = g;
    for i in (from..to).rev() {
        (top, h) = take_word(pack, work, cells, c, l, h, env, &mut stack, top, i)?;
    }
    Some((Node(stack[top]), h))
}
