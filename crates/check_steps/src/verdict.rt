// The verdict: steps, then goals.
ghost use Rattle.std.specs.Prelude.{◌≡◌};
ghost use Rattle.definition.specs.Verdict.{verdict};
ghost use Rattle.pack_read.specs.Held.{Held, OfHeld};
ghost use Rattle.check_steps.specs.Decided.{verdict_of};

use crate::goals::failing_goal;
use crate::steps::failing_step;
use definition::Refusal;
use pack_tables::catalog::Catalog;

// The verdict on the pack that work holds: all pass, or the first step or goal that fails is refused.
pub fn pack_verdict(pack: &[u8], work: &[u32], c: Catalog) -> Result<(), Refusal>
    requires { Held pack.now work.now c }
    ensures { OfHeld pack.now work.now c (λ P. verdict_of result ≡ verdict P) }
{
    if let Some(i) = failing_step(pack, work, c) {
        return Err(Refusal::Step(i as u64));
    }
    if let Some(g) = failing_goal(pack, work, c) {
        return Err(Refusal::Goal(g as u64));
    }
    Ok(())
}
