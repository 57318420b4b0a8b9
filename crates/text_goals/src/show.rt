// Classes made, then the goals tested and shown, then figures counted.
ghost use Rattle.std.specs.Prelude.{◌<◌, length};
ghost use Rattle.definition.specs.Store.{nothing};
ghost use Rattle.class_build.specs.Ready.{Opened};
ghost use Rattle.class_premises.specs.Buffers.{lent};
ghost use Rattle.class_build.specs.Build.{TestingIn};
ghost use Rattle.text_goals.specs.Ends.{EndsShown};
ghost use Rattle.text_goals.specs.Shows.{Shows};

use crate::goal::Budgets;
use crate::goals::show_goals;
use class_build::build::build_classes;
use class_build::figures::figures_of;
use class_build::goal_tables::instance_tables;
use class_keys::classes::Counts;
use class_premises::building::{Building, Counted};
use definition::{Buffer, Figures, Refusal};
use pack_tables::catalog::Catalog;

// All classes are made, and their sums are `t`: the goals are tested and shown, and figures counted. How many class words,
// pattern words and bytes of text there are, and the figures.
fn finish(
    pack: &[u8],
    work: &mut [u32],
    class: &[u32],
    words: &[u32],
    cells: &[u32],
    text: &mut [u8],
    s: Building,
    r: Counts,
    t: Counted,
    b: Budgets,
) -> Result<(usize, usize, usize, Figures), Refusal>
    requires { TestingIn (lent pack.now class.now words.now cells.now work.old) s r t × (length class.now < 4294967296) × (length text.old < 18446744073709551615) }
    ensures { EndsShown (lent pack.now class.now words.now cells.now work.old) text.old text.new s r t b result }
{
    let tables = instance_tables(cells, s.layout, s.store);
    let end = show_goals(pack, work, class, words, text, s, tables, b)?;
    if text.len() < end {
        return Err(Refusal::Short(Buffer::TEXT));
    }
    let f = figures_of(work, s.keying, r, s.layout.nodes, s.store, t);
    Ok((s.fill, s.store.used, end, f))
}

// The goals as shown, from a pack that was read into work, by its tables: how many class words, pattern words and bytes of text there
// are, and the figures. What work and the cells hold then, and what stands behind the text, is left open, and behind a refusal what any
// buffer holds: the call clears them.
pub fn show(
    pack: &[u8],
    work: &mut [u32],
    class: &mut [u32],
    words: &mut [u32],
    cells: &mut [u32],
    text: &mut [u8],
    c: Catalog,
    b: Budgets,
) -> Result<(usize, usize, usize, Figures), Refusal>
    requires { Opened pack.now work.old words.old cells.old c × (length class.old < 4294967296) × (length cells.old < nothing) × (length text.old < 18446744073709551615) }
    ensures { Shows pack.now work.old class.old words.old cells.old text.old class.new words.new text.new c b result }
{
    let (s, r, t) = build_classes(pack, work, class, words, cells, c)?;
    finish(pack, work, class, words, cells, text, s, r, t, b)
}
