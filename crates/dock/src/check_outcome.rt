// The step check's outcome, ahead of clearing.
ghost use Rattle.std.specs.Prelude.{◌≡◌, length};
ghost use Rattle.definition.specs.Check.{check_refusal};
ghost use Rattle.dock_call.specs.Outcome.{refusal_of};
ghost use Rattle.pack_reader.specs.Parsed.{Room};
ghost use Rattle.dock.specs.Opened.{judged};

use check_steps::verdict::pack_verdict;
use definition::Refusal;
use dock_call::lent::{Lent, test_lengths};
use dock_call::opening::take_pack;
use pack_reader::read::tables;

// The pack read, its steps and goals judged, in a work buffer, or a part of one, that has room for the tables. What stands in work then is
// left open.
fn run_check(pack: &[u8], work: &mut [u32]) -> Result<(), Refusal>
    requires { Room pack.now work.old }
    ensures { refusal_of result ≡ judged pack.now }
{
    take_pack(pack, work)?;
    pack_verdict(pack, work, tables(pack))
}

// The lengths tested, then the run. What stands in work then is the call's to clear.
pub fn check_outcome(pack: &[u8], work: &mut [u32]) -> Result<(), Refusal>
    ensures { refusal_of result ≡ check_refusal pack.now (length work.old) }
{
    let lent = Lent {
        pack: pack.len(),
        class: 0,
        pattern: 0,
        graph: 0,
        work: work.len(),
        text: 0,
        goals: 0,
    };
    test_lengths(lent)?;
    run_check(pack, work)
}
