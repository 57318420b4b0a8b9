// The premises of a rule one by one, each unified with a copy of the conclusion of its ref's class.
ghost use Rattle.class_premises.specs.Buffers.{lent};
ghost use Rattle.class_premises.specs.Next.{NextingIn, NextsIn};
ghost use Rattle.class_premises.specs.AllPremises.{StartingIn, TakesAllIn};

use crate::building::Building;
use crate::premise::{Premise, Reached, take_premise};
use crate::row::row_of;
use base::id::Node;
use class_keys::firsts::first_of;
use definition::Refusal;
use graph::graph::Graph;
use pack_read::step::step_ref;

// The step that makes a class: its rule, how many variables that has, how many premises.
#[derive(Clone, Copy)]
pub struct Ruling {
    pub step: usize,
    pub rule: usize,
    pub vars: usize,
    pub premises: usize,
}

// Premise `i`, behind those that are taken. A refusal leaves open what work and the cells hold then.
fn next_premise(
    pack: &[u8],
    work: &mut [u32],
    class: &[u32],
    words: &[u32],
    cells: &mut [u32],
    s: Building,
    t: Reached,
    env: &[u32],
    u: Ruling,
    i: usize,
) -> Result<(Reached, Node), Refusal>
    requires { NextingIn (lent pack.now class.now words.now cells.old work.old) s t env.now u i }
    ensures { NextsIn (lent pack.now class.now words.now cells.old work.old) (lent pack.now class.now words.now cells.new work.new) s t env.now u i result }
{
    let r = step_ref(pack, work, s.catalog, u.step, i) as usize;
    let f = first_of(pack, work, s.catalog, s.keying.at, r);
    let row = row_of(work, class, s.layout, f);
    let p = Premise {
        step: u.step,
        rule: u.rule,
        vars: u.vars,
        row,
        from: t.from,
        copies: t.copies,
    };
    take_premise(pack, work, class, words, cells, s, t.memo, t.graph, env, p)
}

// All premises, from a graph of the rule's variables on; the instance of each is put down. A refusal leaves open what work, the
// cells and the instances hold then.
pub fn take_premises(
    pack: &[u8],
    work: &mut [u32],
    class: &[u32],
    words: &[u32],
    cells: &mut [u32],
    s: Building,
    g: Graph,
    env: &[u32],
    u: Ruling,
    instances: &mut [u32],
) -> Result<Reached, Refusal>
    requires { StartingIn (lent pack.now class.now words.now cells.old work.old) s g env.now u instances.old }
    ensures { TakesAllIn (lent pack.now class.now words.now cells.old work.old) (lent pack.now class.now words.now cells.new work.new) s g env.now u instances.new result }
{
    let mut t = Reached {
        graph: g,
        memo: s.memo,
        from: 0,
        copies: 0,
    };
    for i in 0..u.premises {
        let (more, x) = next_premise(pack, work, class, words, cells, s, t, env, u, i)?;
        instances[i] = x.0;
        t = more;
    }
    Ok(t)
}
