// What class building leaves behind a call: zeros behind its words, and no figures with a refusal.
ghost use Rattle.std.specs.Prelude.{◌≡◌};
ghost use Rattle.definition.specs.Calls.{no_figures};
ghost use Rattle.buffer.specs.Zero.{zeroed};

use buffer::zero::fill_from;
use definition::Figures;

// What stands behind so many class words and pattern words, and all else that was lent, becomes zeros.
pub fn clear(
    class: &mut [u32],
    pattern: &mut [u32],
    graph: &mut [u32],
    work: &mut [u32],
    n: usize,
    m: usize,
)
    ensures class { class.new ≡ zeroed n class.old }
    ensures pattern { pattern.new ≡ zeroed m pattern.old }
    ensures graph { graph.new ≡ zeroed 0 graph.old }
    ensures work { work.new ≡ zeroed 0 work.old }
{
    fill_from(class, n, 0);
    fill_from(pattern, m, 0);
    fill_from(graph, 0, 0);
    fill_from(work, 0, 0);
}

// No figure.
pub fn no_figures() -> Figures
    ensures { result ≡ no_figures }
{
    Figures {
        steps: 0,
        classes: 0,
        ground_nodes: 0,
        pattern_nodes: 0,
        class_vars: 0,
        flex_vars: 0,
        fixed_vars: 0,
        subst_entries: 0,
        subst_renamings: 0,
        single: 0,
        few: 0,
        tens: 0,
        hundreds: 0,
    }
}
