// The row of a cut class: all its variables are flexible.
ghost use Rattle.std.specs.Prelude.{◌+◌, ◌≤◌, length};
ghost use Rattle.class_cut.specs.Marks.{Marked, WritingIn, WritesIn};

use base::id::Pattern;
use class_keys::classes::class_count;
use class_premises::building::Building;
use class_premises::row::{Row, begin_row};

// `n` marks from `at` on, all 1.
fn put_marks(class: &mut [u32], at: usize, n: usize)
    requires { at + n ≤ length class.old }
    ensures { Marked class.old class.new at n n }
{
    class[at..at + n].fill(1);
}

// The row of class `i`, with this conclusion and `n` variables, behind the others.
pub fn write_cut(
    work: &mut [u32],
    class: &mut [u32],
    s: Building,
    i: usize,
    conclusion: Pattern,
    n: usize,
)
    requires { WritingIn work.old class.old s i n }
    ensures { WritesIn work.old class.old work.new class.new s i conclusion.0 n }
{
    let count = class_count(work, s.keying, i);
    begin_row(work, class, s.layout, s.fill, i, conclusion, count, n);
    put_marks(class, s.fill + Row::MARKS, n);
}
