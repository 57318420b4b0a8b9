// The figures, from what was built.
ghost use Rattle.std.specs.Prelude.{◌+◌, ◌*◌, ◌≤◌, length};
ghost use Rattle.class_build.specs.Figures.{Figured};

use crate::histogram::histogram;
use class_keys::classes::{Counts, Keying};
use class_premises::building::Counted;
use definition::Figures;
use store::nodes::Store;

// The figures of these classes, whose sums are `t`, of a pack of so many ground nodes.
pub fn figures_of(
    work: &[u32],
    k: Keying,
    r: Counts,
    nodes: usize,
    st: Store,
    t: Counted,
) -> Figures
    requires { k.at + 2 * k.cap + r.classes ≤ length work.now }
    ensures { Figured work.now k r nodes st t result }
{
    let s = histogram(work, k, r.classes);
    let patterns = st.len();
    Figures {
        steps: r.needed as u64,
        classes: r.classes as u64,
        ground_nodes: nodes as u64,
        pattern_nodes: patterns as u64,
        class_vars: t.vars as u64,
        flex_vars: t.flex as u64,
        fixed_vars: t.fixed as u64,
        subst_entries: t.entries as u64,
        subst_renamings: t.renamings as u64,
        single: s.single,
        few: s.few,
        tens: s.tens,
        hundreds: s.hundreds,
    }
}
