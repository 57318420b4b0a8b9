// Each premise's instance against the judgment of its ref, one after the other: a root keeps the value that it has.
ghost use Rattle.class_solve.specs.OneValue.{Asking, Gives};
ghost use Rattle.class_solve.specs.AllValues.{Begun, GivesFrom, Starting, GivesAll};

use base::id::Node;
use graph::graph::Graph;
use pack_read::step::{step_judgment, step_ref};
use pack_tables::catalog::Catalog;
use term_values::fix::{Fixed, fix};
use term_values::values::{Valued, clear};

// Node `x`, the instance of premise `i` of a step, against the judgment of the step's ref `i`.
fn fix_premise(
    pack: &[u8],
    work: &mut [u32],
    cells: &[u32],
    c: Catalog,
    v: Valued,
    g: Graph,
    step: usize,
    i: usize,
    x: Node,
) -> Fixed
    requires { Asking pack.now work.old cells.now c v g step i x.0 }
    ensures { Gives pack.now work.old work.new cells.now c v g step i x.0 result }
{
    let r = step_ref(pack, work, c, step, i) as usize;
    let n = step_judgment(pack, work, c, r);
    fix(pack, work, cells, c, v, g, x, n)
}

// The instances of the first `n` premises of a step against the judgments of its refs, from no value on.
fn fix_each(
    pack: &[u8],
    work: &mut [u32],
    cells: &[u32],
    c: Catalog,
    v: Valued,
    g: Graph,
    step: usize,
    n: usize,
    instances: &[u32],
) -> Fixed
    requires { Begun pack.now work.old cells.now c v g step n instances.now }
    ensures { GivesFrom pack.now work.old work.new cells.now c v g step n instances.now result }
{
    for i in 0..n {
        if let Fixed::Differs = fix_premise(
            pack,
            work,
            cells,
            c,
            v,
            g,
            step,
            i,
            Node(instances[i]),
        ) {
            return Fixed::Differs;
        }
    }
    Fixed::Done
}

// All values are taken away, then the instances give theirs.
pub fn fix_premises(
    pack: &[u8],
    work: &mut [u32],
    cells: &[u32],
    c: Catalog,
    v: Valued,
    g: Graph,
    step: usize,
    n: usize,
    instances: &[u32],
) -> Fixed
    requires { Starting pack.now work.old cells.now c v g step n instances.now }
    ensures { GivesAll pack.now work.old work.new cells.now c v g step n instances.now result }
{
    clear(work, cells, v, g);
    fix_each(pack, work, cells, c, v, g, step, n, instances)
}
