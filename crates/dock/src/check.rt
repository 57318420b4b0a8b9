// The step check.
ghost use Rattle.std.specs.Prelude.{◌≡◌, length};
ghost use Rattle.definition.specs.Check.{CheckLeft, cert_check};
ghost use Rattle.dock.specs.Check.{Statement};

use crate::check_outcome::check_outcome;
use buffer::zero::fill_from;
use definition::Answer;
use dock_call::answer::outcome_answer;

// Whether each step follows by its rule and each goal has its result: 0, or the refusal's number and place; work is zeros afterwards.
#[unsafe(no_mangle)]
pub extern "C" fn cert_check(pack: &[u8], work: &mut [u32]) -> Answer
    ensures answer { ◌≡◌ {A = CheckLeft} (record { returned = result; work = work.new }) (cert_check pack.now (length work.old)) }
    ensures statement { Statement pack.now (length work.old) result }
{
    let outcome = check_outcome(pack, work);
    fill_from(work, 0, 0);
    outcome_answer(outcome)
}
