// A rule's variables as the first nodes of a graph.
ghost use Rattle.term_instantiate.specs.Variables.{Opening, Opens};

use crate::terms::Place;
use graph::graph::Graph;
use pack_read::rule::rule_var;
use pack_tables::catalog::Catalog;

// A graph of the rule's variables alone: variable `k` is node `k`. None where the cells have no room.
pub fn open_variables(
    pack: &[u8],
    work: &mut [u32],
    cells: &mut [u32],
    c: Catalog,
    l: Place,
) -> Option<Graph>
    requires { Opening pack.now work.old cells.old c l }
    ensures { Opens pack.now work.old work.new cells.old cells.new c l result }
{
    let mut g = Graph::new(cells, &mut work[l.at..l.end]);
    for k in 0..l.vars {
        let sort = rule_var(pack, work, c, l.rule, k);
        (_, g) = g.var(cells, &mut work[l.at..l.end], sort, 0, 0)?;
    }
    Some(g)
}
