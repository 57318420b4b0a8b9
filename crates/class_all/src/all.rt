// All classes made, in the order of their first steps.
ghost use Rattle.class_premises.specs.Buffers.{lent};
ghost use Rattle.class_all.specs.All.{BeginningIn, BuildsIn};

use crate::class::make_class;
use crate::totals::add_counted;
use class_premises::building::{Building, Counted};
use definition::Refusal;

// The `count` classes that the keys count, where none is made yet, with the sums of what figures count. A refusal leaves open what all
// buffers but the pack hold then.
pub fn make_classes(
    pack: &[u8],
    work: &mut [u32],
    class: &mut [u32],
    words: &mut [u32],
    cells: &mut [u32],
    s: Building,
    count: usize,
) -> Result<(Building, Counted), Refusal>
    requires { BeginningIn (lent pack.now class.old words.old cells.old work.old) s count }
    ensures { BuildsIn (lent pack.now class.old words.old cells.old work.old) (lent pack.now class.new words.new cells.new work.new) s count result }
{
    let mut at = s;
    let mut sums = Counted::NONE;
    for i in 0..count {
        let (more, f) = make_class(pack, work, class, words, cells, at, i)?;
        sums = add_counted(sums, f);
        at = more;
    }
    Ok((at, sums))
}
