// The steps' tests.
ghost use Rattle.std.specs.Prelude.{◌≡◌, ◌<◌, length};
ghost use Rattle.definition.specs.Pack.{step_of, most_variables, most_words};
ghost use Rattle.definition.specs.Verdict.{passes, first_failing};
ghost use Rattle.pack_read.specs.Held.{Held, OfHeld};
ghost use Rattle.check_steps.specs.First.{failing_of};

use crate::matching::rule_matches;
use crate::pending::push_judgments;
use base::limit::Limit;
use pack_read::step::step_rule;
use pack_tables::catalog::Catalog;

// Whether one assignment turns the rule's premises into the judgments of the refs of step `i` and its conclusion into the step's own.
fn step_passes(
    pack: &[u8],
    work: &[u32],
    c: Catalog,
    i: usize,
    stack: &mut [u32],
    values: &mut [u32],
) -> bool
    requires { (H : Held pack.now work.now c) × (i < length H.pack.steps) × (length stack.old ≡ most_words) × (length values.old ≡ most_variables) }
    ensures { OfHeld pack.now work.now c (λ P. result ≡ passes P (step_of P i)) }
{
    let on = push_judgments(pack, work, c, stack, i);
    let r = step_rule(pack, work, c, i) as usize;
    rule_matches(pack, work, c, r, stack, values, on)
}

// The first step that does not pass, if there is one.
pub fn failing_step(pack: &[u8], work: &[u32], c: Catalog) -> Option<usize>
    requires { Held pack.now work.now c }
    ensures { OfHeld pack.now work.now c (λ P. failing_of result ≡ first_failing (passes P) P.steps 0) }
{
    let mut stack = [0; Limit::WORDS];
    let mut values = [0; Limit::VARIABLES];
    let steps = c.count(work, Catalog::STEPS);
    for i in 0..steps {
        if !step_passes(pack, work, c, i, &mut stack, &mut values) {
            return Some(i);
        }
    }
    None
}
