// Classes made, then goals tested, then figures counted.
ghost use Rattle.std.specs.Prelude.{◌<◌, length};
ghost use Rattle.definition.specs.Store.{nothing};
ghost use Rattle.class_build.specs.Ready.{Opened};
ghost use Rattle.class_premises.specs.Buffers.{lent};
ghost use Rattle.class_build.specs.Build.{TestingIn, EndsIn, BeginningIn, GoesIn, BuildsClasses, Builds};

use crate::figures::figures_of;
use crate::goal_tables::instance_tables;
use crate::goals::test_goals;
use crate::ready::make_ready;
use class_all::all::make_classes;
use class_keys::classes::Counts;
use class_premises::building::{Building, Counted};
use definition::{Buffer, Figures, Refusal};
use pack_tables::catalog::Catalog;

// All classes are made, and their sums are `t`: the goals are tested, and figures counted. How many class words and pattern words there
// are, and the figures.
fn finish(
    pack: &[u8],
    work: &mut [u32],
    class: &[u32],
    words: &[u32],
    cells: &[u32],
    s: Building,
    r: Counts,
    t: Counted,
) -> Result<(usize, usize, Figures), Refusal>
    requires { TestingIn (lent pack.now class.now words.now cells.now work.old) s r t }
    ensures { EndsIn (lent pack.now class.now words.now cells.now work.old) s r t result }
{
    let tables = instance_tables(cells, s.layout, s.store);
    test_goals(
        pack, work, class, words, s.catalog, s.keying, s.layout, tables, s.store,
    )?;
    let f = figures_of(work, s.keying, r, s.layout.nodes, s.store, t);
    Ok((s.fill, s.store.used, f))
}

// All classes from the first on: what is at hand then, how many classes and needed steps there are, and the classes' sums.
fn make_from(
    pack: &[u8],
    work: &mut [u32],
    class: &mut [u32],
    words: &mut [u32],
    cells: &mut [u32],
    s: Building,
    r: Counts,
) -> Result<(Building, Counts, Counted), Refusal>
    requires { BeginningIn (lent pack.now class.old words.old cells.old work.old) s r }
    ensures { GoesIn (lent pack.now class.old words.old cells.old work.old) (lent pack.now class.new words.new cells.new work.new) s r result }
{
    let (at, t) = make_classes(pack, work, class, words, cells, s, r.classes)?;
    Ok((at, r, t))
}

// All classes from a pack that was read into work, by its tables: what is at hand then, how many classes and needed steps there are, and
// the classes' sums. Behind a refusal it is left open what any buffer holds.
pub fn build_classes(
    pack: &[u8],
    work: &mut [u32],
    class: &mut [u32],
    words: &mut [u32],
    cells: &mut [u32],
    c: Catalog,
) -> Result<(Building, Counts, Counted), Refusal>
    requires { Opened pack.now work.old words.old cells.old c × (length class.old < 4294967296) × (length cells.old < nothing) }
    ensures { BuildsClasses pack.now work.old class.old words.old cells.old work.new class.new words.new cells.new c result }
{
    let Some(o) = make_ready(pack, work, class, words, cells, c) else {
        return Err(Refusal::Short(Buffer::CLASS));
    };
    let fill = c.count(work, Catalog::STEPS);
    let s = Building {
        catalog: c,
        keying: o.keying,
        layout: o.layout,
        store: o.store,
        memo: o.memo,
        fill,
    };
    make_from(pack, work, class, words, cells, s, o.counts)
}

// Class building from a pack that was read into work, by its tables: how many class words and pattern words there are, and the figures.
// What work and the cells hold then is left open, and behind a refusal what any buffer holds: the call clears them.
pub fn build(
    pack: &[u8],
    work: &mut [u32],
    class: &mut [u32],
    words: &mut [u32],
    cells: &mut [u32],
    c: Catalog,
) -> Result<(usize, usize, Figures), Refusal>
    requires { Opened pack.now work.old words.old cells.old c × (length class.old < 4294967296) × (length cells.old < nothing) }
    ensures { Builds pack.now work.old class.old words.old cells.old class.new words.new c result }
{
    let (s, r, t) = build_classes(pack, work, class, words, cells, c)?;
    finish(pack, work, class, words, cells, s, r, t)
}
