// What showing the goals comes to, ahead of clearing.
ghost use Rattle.dock.specs.ComesShown.{Spacious, Runs, Comes};

use definition::{Figures, Refusal};
use dock_call::lent::{Lent, test_lengths};
use dock_call::opening::take_pack;
use pack_reader::read::tables;
use text_goals::goal::Budgets;
use text_goals::show::show;

// The pack read, its classes built and its goals tested and shown, in a work buffer, or a part of one, that has room for what this spends.
// What stands behind the words and the text of an answer, and in all buffers behind a refusal, is left open.
fn run_show(
    pack: &[u8],
    class: &mut [u32],
    pattern: &mut [u32],
    graph: &mut [u32],
    work: &mut [u32],
    text: &mut [u8],
    b: Budgets,
) -> Result<(usize, usize, usize, Figures), Refusal>
    requires { Spacious pack.now class.old pattern.old graph.old work.old text.old }
    ensures { Runs pack.now class.old pattern.old graph.old text.old class.new pattern.new text.new b result }
{
    take_pack(pack, work)?;
    show(pack, work, class, pattern, graph, text, tables(pack), b)
}

// The lengths tested, then the run. What stands behind the words and the text of an answer, and in all buffers behind a refusal, is the
// call's to clear.
pub fn show_outcome(
    pack: &[u8],
    class: &mut [u32],
    pattern: &mut [u32],
    graph: &mut [u32],
    work: &mut [u32],
    text: &mut [u8],
    b: Budgets,
) -> Result<(usize, usize, usize, Figures), Refusal>
    ensures { Comes pack.now class.old pattern.old graph.old work.old text.old class.new pattern.new text.new b result }
{
    let lent = Lent {
        pack: pack.len(),
        class: class.len(),
        pattern: pattern.len(),
        graph: graph.len(),
        work: work.len(),
        text: text.len(),
        goals: 0,
    };
    test_lengths(lent)?;
    run_show(pack, class, pattern, graph, work, text, b)
}
