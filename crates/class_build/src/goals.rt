// The goals when all classes are made: the instance test's tables are begun behind the store's index, then each goal is tested.
ghost use Rattle.class_build.specs.Tests.{Made, Tests};

use crate::goal::Testing;
use crate::goals_each::test_each;
use class_keys::classes::Keying;
use class_premises::layout::Layout;
use definition::Refusal;
use memo::memo::Memo;
use memo::part::begin;
use pack_tables::catalog::Catalog;
use store::nodes::Store;
use term_instance::tables::Instance;

// The goals are tested in ascending order, which gives the memos as they are then; the words of `t`'s tables may hold anything before.
pub fn test_goals(
    pack: &[u8],
    work: &mut [u32],
    class: &[u32],
    words: &[u32],
    c: Catalog,
    k: Keying,
    l: Layout,
    t: Instance,
    st: Store,
) -> Result<(Memo, Memo), Refusal>
    requires { Made pack.now work.old class.now words.now c k l t st }
    ensures { Tests pack.now work.old work.new class.now words.now c k l t st result }
{
    let seen = begin(work, t.seen, t.values);
    let values = begin(work, t.values, t.end);
    let at = Testing {
        tables: t,
        seen,
        values,
    };
    test_each(pack, work, class, words, c, k, l, st, at)
}
