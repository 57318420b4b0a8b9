// The goals' tests.
ghost use Rattle.std.specs.Prelude.{◌≡◌, ◌<◌, length, get_or};
ghost use Rattle.definition.specs.Verdict.{no_goal, met, first_failing};
ghost use Rattle.pack_read.specs.Held.{Held, OfHeld};
ghost use Rattle.check_steps.specs.First.{failing_of};

use pack_read::goal::goal_step;
use pack_tables::catalog::Catalog;

// Whether goal `g` has a result of its name whose step has its judgment.
fn goal_is_met(pack: &[u8], work: &[u32], c: Catalog, g: usize) -> bool
    requires { (H : Held pack.now work.now c) × (g < length H.pack.goals) }
    ensures { OfHeld pack.now work.now c (λ P. result ≡ met P (get_or P.goals g no_goal)) }
{
    match goal_step(pack, work, c, g) {
        Some(_) => true,
        None => false,
    }
}

// The first goal that is not met, if there is one.
pub fn failing_goal(pack: &[u8], work: &[u32], c: Catalog) -> Option<usize>
    requires { Held pack.now work.now c }
    ensures { OfHeld pack.now work.now c (λ P. failing_of result ≡ first_failing (met P) P.goals 0) }
{
    let goals = c.count(work, Catalog::GOALS);
    for g in 0..goals {
        if !goal_is_met(pack, work, c, g) {
            return Some(g);
        }
    }
    None
}
