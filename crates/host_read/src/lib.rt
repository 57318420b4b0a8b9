// Reads a pack and forgets it, for the host's tests and benchmark of the reader.
#![tactic(auto)]

ghost use Rattle.std.specs.Prelude.{◌≡◌, length};
ghost use Rattle.definition.specs.Check.{CheckLeft};
ghost use Rattle.host_read.specs.Read.{read_only};

use definition::Answer;
use dock_call::answer::outcome_answer;
use dock_call::lent::Lent;
use dock_call::opening::open_pack;

// The answer that reading alone gives; work is zeros afterwards.
#[unsafe(no_mangle)]
pub extern "C" fn parse_pack(pack: &[u8], work: &mut [u32]) -> Answer
    ensures { ◌≡◌ {A = CheckLeft} (record { returned = result; work = work.new }) (read_only pack.now (length work.old)) }
{
    let lent = Lent {
        pack: pack.len(),
        class: 0,
        pattern: 0,
        graph: 0,
        work: work.len(),
        text: 0,
        goals: 0,
    };
    let outcome = open_pack(lent, pack, work);
    work.fill(0);
    outcome_answer(outcome)
}
