// One goal after the other, in ascending order.
ghost use Rattle.class_build.specs.Testable.{Testable};
ghost use Rattle.class_build.specs.EachGoal.{TestsEach};

use crate::goal::{Testing, test_goal};
use class_keys::classes::Keying;
use class_premises::layout::Layout;
use definition::Refusal;
use memo::memo::Memo;
use pack_tables::catalog::Catalog;
use store::nodes::Store;

// The goals are tested, which gives the memos as they are then: the first goal that is not met is refused.
pub fn test_each(
    pack: &[u8],
    work: &mut [u32],
    class: &[u32],
    words: &[u32],
    c: Catalog,
    k: Keying,
    l: Layout,
    st: Store,
    t: Testing,
) -> Result<(Memo, Memo), Refusal>
    requires { Testable pack.now work.old class.now words.now c k l t.tables st t.seen t.values }
    ensures { TestsEach pack.now work.old work.new class.now words.now c k l t.tables st result }
{
    let goals = c.count(work, Catalog::GOALS);
    let tables = t.tables;
    let mut seen = t.seen;
    let mut values = t.values;
    for g in 0..goals {
        let at = Testing {
            tables,
            seen,
            values,
        };
        (seen, values, _) = test_goal(pack, work, class, words, c, k, l, st, at, g)?;
    }
    Ok((seen, values))
}
