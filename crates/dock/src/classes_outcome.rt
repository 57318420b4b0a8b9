// Class building's outcome, ahead of clearing.
ghost use Rattle.dock.specs.Comes.{Spacious, Runs, Comes};

use class_build::build::build;
use definition::{Figures, Refusal};
use dock_call::lent::{Lent, test_lengths};
use dock_call::opening::take_pack;
use pack_reader::read::tables;

// The pack read, its classes built and its goals tested, in a work buffer, or a part of one, that has room for what this spends. What
// stands behind the words of an answer, and in all buffers behind a refusal, is left open.
fn run_classes(
    pack: &[u8],
    class: &mut [u32],
    pattern: &mut [u32],
    graph: &mut [u32],
    work: &mut [u32],
) -> Result<(usize, usize, Figures), Refusal>
    requires { Spacious pack.now class.old pattern.old graph.old work.old }
    ensures { Runs pack.now class.old pattern.old graph.old class.new pattern.new result }
{
    take_pack(pack, work)?;
    build(pack, work, class, pattern, graph, tables(pack))
}

// The lengths tested, then the run. What stands behind the words of an answer, and in all buffers behind a refusal, is the call's to
// clear.
pub fn classes_outcome(
    pack: &[u8],
    class: &mut [u32],
    pattern: &mut [u32],
    graph: &mut [u32],
    work: &mut [u32],
) -> Result<(usize, usize, Figures), Refusal>
    ensures { Comes pack.now class.old pattern.old graph.old work.old class.new pattern.new result }
{
    let lent = Lent {
        pack: pack.len(),
        class: class.len(),
        pattern: pattern.len(),
        graph: graph.len(),
        work: work.len(),
        text: 0,
        goals: 0,
    };
    test_lengths(lent)?;
    run_classes(pack, class, pattern, graph, work)
}
