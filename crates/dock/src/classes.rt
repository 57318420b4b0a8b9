// Class building.
ghost use Rattle.std.specs.Prelude.{◌≡◌, length};
ghost use Rattle.definition.specs.Calls.{cert_classes};
ghost use Rattle.theory.specs.Principal.{DemandThree};
ghost use Rattle.dock.specs.Classes.{left_of};

use crate::classes_outcome::classes_outcome;
use definition::Figures;
use dock_call::answer::outcome_answer;
use dock_call::leave::{clear, no_figures};

// A number of document 01's table with its place, and the figures.
#[repr(C)]
#[derive(Clone, Copy)]
pub struct ClassesAnswer {
    pub code: u64,
    pub place: u64,
    pub figures: Figures,
}

// The classes of the needed steps and their most general conclusions: class and pattern words with zeros behind them, and the figures; or the
// refusal's number and place, with zeros only. The graph and work buffers are zeros afterwards.
#[unsafe(no_mangle)]
pub extern "C" fn cert_classes(
    pack: &[u8],
    class: &mut [u32],
    pattern: &mut [u32],
    graph: &mut [u32],
    work: &mut [u32],
) -> ClassesAnswer
    ensures answer { left_of result class.new pattern.new graph.new work.new ≡ cert_classes pack.now (length class.old) (length pattern.old) (length graph.old) (length work.old) }
    ensures principal { DemandThree pack.now (length class.old) (length pattern.old) (length graph.old) (length work.old) (left_of result class.new pattern.new graph.new work.new) }
{
    match classes_outcome(pack, class, pattern, graph, work) {
        Ok((n, m, f)) => {
            clear(class, pattern, graph, work, n, m);
            ClassesAnswer {
                code: 0,
                place: 0,
                figures: f,
            }
        }
        Err(r) => {
            clear(class, pattern, graph, work, 0, 0);
            let a = outcome_answer(Err(r));
            ClassesAnswer {
                code: a.code,
                place: a.place,
                figures: no_figures(),
            }
        }
    }
}
