// The row of a rule's class: for each numbered variable whether it is flexible.
ghost use Rattle.class_rule.specs.Marks.{Marking, Marked, WritingIn, WritesIn};

use crate::flex::flex_mark;
use base::id::{Node, Pattern};
use class_keys::classes::class_count;
use class_premises::building::Building;
use class_premises::layout::Layout;
use class_premises::row::{Row, begin_row};
use graph::graph::Graph;
use graph::places::numbers_at;

// The marks of the `n` numbered variables, from `at` on; and how many are flexible.
fn put_flexes(
    work: &[u32],
    class: &mut [u32],
    cells: &[u32],
    l: Layout,
    g: Graph,
    at: usize,
    n: usize,
) -> usize
    requires { Marking work.now class.old cells.now l g at n }
    ensures { Marked work.now class.old class.new cells.now l g at n n result }
{
    let numbers = l.graph + numbers_at(cells);
    let mut flex: usize = 0;
    for j in 0..n {
        let x = Node(work[numbers + j]);
        let mark = flex_mark(work, cells, l, g, x);
        class[at + j] = mark;
        flex += mark as usize;
    }
    flex
}

// The row of class `i`, with this conclusion and the `n` numbered variables, behind the others; and how many of these are flexible.
pub fn write_row(
    work: &mut [u32],
    class: &mut [u32],
    cells: &[u32],
    s: Building,
    g: Graph,
    i: usize,
    conclusion: Pattern,
    n: usize,
) -> usize
    requires { WritingIn work.old class.old cells.now s g i n }
    ensures { WritesIn work.old class.old work.new class.new cells.now s g i conclusion.0 n result }
{
    let count = class_count(work, s.keying, i);
    begin_row(work, class, s.layout, s.fill, i, conclusion, count, n);
    put_flexes(work, class, cells, s.layout, g, s.fill + Row::MARKS, n)
}
