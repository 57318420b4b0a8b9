// The goals as shown.
ghost use Rattle.std.specs.Prelude.{◌≡◌, length};
ghost use Rattle.definition.specs.Calls.{cert_show};
ghost use Rattle.theory.specs.Principal.{DemandThreeShown};
ghost use Rattle.dock.specs.Shown.{left_of};

use crate::show_outcome::show_outcome;
use buffer::zero::fill_from;
use definition::Figures;
use dock_call::answer::outcome_answer;
use dock_call::leave::{clear, no_figures};
use text_goals::goal::Budgets;

// A number of document 01's table with its place, how many bytes of text there are, and the figures.
#[repr(C)]
#[derive(Clone, Copy)]
pub struct ShowAnswer {
    pub code: u64,
    pub place: u64,
    pub text_len: u64,
    pub figures: Figures,
}

// "The show call writes to buffer 5 for each goal a line of its name, a blank and the general form, then a line a variable", each form with
// a budget and each value with another: class and pattern words and the text with zeros behind them, and the figures; or the refusal's
// number and place, with zeros only. The graph and work buffers are zeros afterwards.
#[unsafe(no_mangle)]
pub extern "C" fn cert_show(
    pack: &[u8],
    budget: u64,
    value_budget: u64,
    class: &mut [u32],
    pattern: &mut [u32],
    graph: &mut [u32],
    work: &mut [u32],
    text: &mut [u8],
) -> ShowAnswer
    ensures answer { left_of result class.new pattern.new graph.new work.new text.new ≡ cert_show pack.now budget value_budget (length class.old) (length pattern.old) (length graph.old) (length work.old) (length text.old) }
    ensures principal { DemandThreeShown pack.now budget value_budget (length class.old) (length pattern.old) (length graph.old) (length work.old) (length text.old) (left_of result class.new pattern.new graph.new work.new text.new) }
{
    let b = Budgets {
        form: budget,
        value: value_budget,
    };
    match show_outcome(pack, class, pattern, graph, work, text, b) {
        Ok((n, m, k, f)) => {
            clear(class, pattern, graph, work, n, m);
            fill_from(text, k, 0);
            ShowAnswer {
                code: 0,
                place: 0,
                text_len: k as u64,
                figures: f,
            }
        }
        Err(r) => {
            clear(class, pattern, graph, work, 0, 0);
            fill_from(text, 0, 0);
            let a = outcome_answer(Err(r));
            ShowAnswer {
                code: a.code,
                place: a.place,
                text_len: 0,
                figures: no_figures(),
            }
        }
    }
}
