// One goal: its result, that one's class, and the instance test.
ghost use Rattle.std.specs.Prelude.{◌<◌, length};
ghost use Rattle.pack_tables.specs.Catalog.{records_of};
ghost use Rattle.class_build.specs.Testable.{Testable};
ghost use Rattle.class_build.specs.OneGoal.{TestsOne};

use class_keys::classes::Keying;
use class_keys::firsts::first_of;
use class_premises::layout::Layout;
use class_premises::row::{row_conclusion, row_of};
use definition::Refusal;
use memo::memo::Memo;
use pack_read::goal::{goal_judgment, goal_step};
use pack_tables::catalog::Catalog;
use store::nodes::Store;
use term_instance::instance::instance;
use term_instance::tables::Instance;

// Where the instance test has its tables in work, and its memos as they are: the pattern nodes met, the values of variables.
#[derive(Clone, Copy)]
pub struct Testing {
    pub tables: Instance,
    pub seen: Memo,
    pub values: Memo,
}

// Goal `g` is tested: the memos as they are then, and where the row of its class stands. It is refused if it has no result, or one with
// another judgment, or if the judgment of the result's step is no instance of its class's conclusion.
pub fn test_goal(
    pack: &[u8],
    work: &mut [u32],
    class: &[u32],
    words: &[u32],
    c: Catalog,
    k: Keying,
    l: Layout,
    st: Store,
    t: Testing,
    g: usize,
) -> Result<(Memo, Memo, usize), Refusal>
    requires { Testable pack.now work.old class.now words.now c k l t.tables st t.seen t.values × (g < length (records_of work.old c 5)) }
    ensures { TestsOne pack.now work.old work.new class.now words.now c k l t.tables st g result }
{
    let Some(s) = goal_step(pack, work, c, g) else {
        return Err(Refusal::Goal(g as u64));
    };
    let f = first_of(pack, work, c, k.at, s);
    let row = row_of(work, class, l, f);
    let p = row_conclusion(class, row);
    let m = goal_judgment(pack, work, c, g);
    let Some((seen, values)) = instance(pack, work, words, c, t.tables, st, t.seen, t.values, p, m)
    else {
        return Err(Refusal::Instance(s as u64));
    };
    Ok((seen, values, row))
}
