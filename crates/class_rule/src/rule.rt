// A rule's class made: its premises solved, its conclusion read back, then its row.
ghost use Rattle.class_premises.specs.Buffers.{lent};
ghost use Rattle.class_rule.specs.Adding.{AddingIn, AddsIn};
ghost use Rattle.class_rule.specs.Making.{DerivingIn, MakingIn, MakesIn};

use crate::row::write_row;
use base::limit::Limit;
use class_conclude::conclude::{Ending, conclude};
use class_premises::building::{Building, Counted, go_on};
use class_premises::premise::Reached;
use class_premises::premises::Ruling;
use class_premises::row::Row;
use class_solve::solve::solve_premises;
use definition::{Buffer, Refusal};
use term_instantiate::count::count_up;

// Class `i` behind its premises: the rule's conclusion and the variables of copies read back, then the row. A refusal leaves open what
// all buffers but the pack hold then.
fn add_class(
    pack: &[u8],
    work: &mut [u32],
    class: &mut [u32],
    words: &mut [u32],
    cells: &mut [u32],
    s: Building,
    t: Reached,
    env: &[u32],
    u: Ruling,
    i: usize,
) -> Result<(Building, Counted), Refusal>
    requires { AddingIn (lent pack.now class.old words.old cells.old work.old) s t env.now u i }
    ensures { AddsIn (lent pack.now class.old words.old cells.old work.old) (lent pack.now class.new words.new cells.new work.new) s t env.now u i result }
{
    let q = Ending {
        rule: u.rule,
        vars: u.vars,
        from: t.from,
        copies: t.copies,
    };
    let (h, more, read) = conclude(
        pack, work, words, cells, s.catalog, s.layout, s.store, t.graph, env, q,
    )?;
    let n = read.numbered;
    if class.len() - s.fill < Row::MARKS + n {
        return Err(Refusal::Short(Buffer::CLASS));
    }
    let flex = write_row(work, class, cells, s, h, i, read.pattern, n);
    let f = Counted {
        vars: n,
        flex,
        fixed: read.fixed,
        entries: read.entries,
        renamings: read.renamings,
    };
    Ok((go_on(s, more, t.memo, s.fill + Row::MARKS + n), f))
}

// The class of the step `u.step`, class `i`: `env` are the numbers below that of the rule's variables. A refusal leaves open what all
// buffers but the pack hold then.
fn derive_class(
    pack: &[u8],
    work: &mut [u32],
    class: &mut [u32],
    words: &mut [u32],
    cells: &mut [u32],
    s: Building,
    env: &[u32],
    u: Ruling,
    instances: &mut [u32],
    i: usize,
) -> Result<(Building, Counted), Refusal>
    requires { DerivingIn (lent pack.now class.old words.old cells.old work.old) s env.now u instances.old i }
    ensures { MakesIn (lent pack.now class.old words.old cells.old work.old) (lent pack.now class.new words.new cells.new work.new) s u i result }
{
    let t = solve_premises(pack, work, class, words, cells, s, env, u, instances)?;
    add_class(pack, work, class, words, cells, s, t, env, u, i)
}

// The class of the step `u.step`, class `i`. A refusal leaves open what all buffers but the pack hold then.
pub fn make_rule(
    pack: &[u8],
    work: &mut [u32],
    class: &mut [u32],
    words: &mut [u32],
    cells: &mut [u32],
    s: Building,
    u: Ruling,
    i: usize,
) -> Result<(Building, Counted), Refusal>
    requires { MakingIn (lent pack.now class.old words.old cells.old work.old) s u i }
    ensures { MakesIn (lent pack.now class.old words.old cells.old work.old) (lent pack.now class.new words.new cells.new work.new) s u i result }
{
    let n = u.vars;
    let mut env = [0; Limit::VARIABLES];
    count_up(&mut env, n);
    let mut instances = [0; Limit::PREMISES];
    derive_class(
        pack,
        work,
        class,
        words,
        cells,
        s,
        &env[0..n],
        u,
        &mut instances,
        i,
    )
}
