// A rule's variables opened, its premises unified with copies, the test for circles, and the ground values that the refs' judgments give.
ghost use Rattle.class_premises.specs.Buffers.{lent};
ghost use Rattle.class_premises.specs.AllPremises.{StartingIn};
ghost use Rattle.class_solve.specs.Valuing.{ValuingIn, ValuesIn};
ghost use Rattle.class_solve.specs.Solves.{SolvesFromIn, SolvingIn, SolvesIn};

use crate::values::fix_premises;
use class_premises::building::Building;
use class_premises::premise::Reached;
use class_premises::premises::{Ruling, take_premises};
use definition::{Buffer, Refusal};
use graph::graph::Graph;
use graph_unify::circle::circular;
use term_instantiate::variables::open_variables;
use term_values::fix::Fixed;
use term_values::values::Valued;

// The unified premises tested for circles, and against the judgments of the refs. A refusal leaves open what work holds then.
fn value_premises(
    pack: &[u8],
    work: &mut [u32],
    class: &[u32],
    words: &[u32],
    cells: &[u32],
    s: Building,
    t: Reached,
    env: &[u32],
    u: Ruling,
    instances: &[u32],
) -> Result<Reached, Refusal>
    requires { ValuingIn (lent pack.now class.now words.now cells.now work.old) s t env.now u instances.now }
    ensures { ValuesIn (lent pack.now class.now words.now cells.now work.old) (lent pack.now class.now words.now cells.now work.new) s t env.now u instances.now result }
{
    if circular(t.graph, cells, &mut work[s.layout.graph..s.layout.end]) {
        return Err(Refusal::Circle(u.step as u64));
    }
    let v = Valued {
        at: s.layout.graph,
        end: s.layout.end,
    };
    match fix_premises(
        pack, work, cells, s.catalog, v, t.graph, u.step, u.premises, instances,
    ) {
        Fixed::Done => Ok(t),
        Fixed::Differs => Err(Refusal::Instance(u.step as u64)),
    }
}

// The premises taken into a graph of the rule's variables, then tested. A refusal leaves open what work, the cells and the
// instances hold then.
fn solve_from(
    pack: &[u8],
    work: &mut [u32],
    class: &[u32],
    words: &[u32],
    cells: &mut [u32],
    s: Building,
    g: Graph,
    env: &[u32],
    u: Ruling,
    instances: &mut [u32],
) -> Result<Reached, Refusal>
    requires { StartingIn (lent pack.now class.now words.now cells.old work.old) s g env.now u instances.old }
    ensures { SolvesFromIn (lent pack.now class.now words.now cells.old work.old) (lent pack.now class.now words.now cells.new work.new) s g env.now u result }
{
    let t = take_premises(pack, work, class, words, cells, s, g, env, u, instances)?;
    value_premises(pack, work, class, words, cells, s, t, env, u, instances)
}

// The premises of the step that makes a class, solved: `env` are the numbers below that of the rule's variables. A refusal leaves open
// what work, the cells and the instances hold then.
pub fn solve_premises(
    pack: &[u8],
    work: &mut [u32],
    class: &[u32],
    words: &[u32],
    cells: &mut [u32],
    s: Building,
    env: &[u32],
    u: Ruling,
    instances: &mut [u32],
) -> Result<Reached, Refusal>
    requires { SolvingIn (lent pack.now class.now words.now cells.old work.old) s env.now u instances.old }
    ensures { SolvesIn (lent pack.now class.now words.now cells.old work.old) (lent pack.now class.now words.now cells.new work.new) s env.now u result }
{
    let place = s.layout.place(u.rule, u.vars);
    let Some(g) = open_variables(pack, work, cells, s.catalog, place) else {
        return Err(Refusal::Short(Buffer::GRAPH));
    };
    solve_from(pack, work, class, words, cells, s, g, env, u, instances)
}
