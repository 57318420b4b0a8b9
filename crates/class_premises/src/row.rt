// A class's row: its place noted and its first words written; and where it stands, and what its words say.
ghost use Rattle.std.specs.Prelude.{◌≡◌, ◌+◌, ◌<◌, length, get_or};
ghost use Rattle.class_premises.specs.Row.{Beginning, Begun};
ghost use Rattle.class_premises.specs.Takes.{row_in, conclusion_in, count_in};

use crate::layout::Layout;
use base::id::Pattern;

// A row's words: "conclusion, instance count, variable count, flex marks".
#[derive(Clone, Copy)]
pub struct Row(pub usize);

impl Row {
    pub const COUNT: usize = 1;

    pub const VARIABLES: usize = 2;

    pub const MARKS: usize = 3;
}

// The row of class `i` begins at `fill`: its place is noted, and its conclusion, how many steps the class has and how many variables
// are written.
pub fn begin_row(
    work: &mut [u32],
    class: &mut [u32],
    l: Layout,
    fill: usize,
    i: usize,
    conclusion: Pattern,
    count: usize,
    n: usize,
)
    requires { Beginning work.old class.old l fill i count n }
    ensures { Begun work.old class.old work.new class.new l fill i conclusion.0 count n }
{
    let at = l.rows + i;
    work[at] = fill as u32;
    class[fill] = conclusion.0;
    class[fill + Row::COUNT] = count as u32;
    class[fill + Row::VARIABLES] = n as u32;
}

// Where the row of step `f`'s class stands.
pub fn row_of(work: &[u32], class: &[u32], l: Layout, f: usize) -> usize
    requires { (f < length class.now) × (l.rows + get_or class.now f 0 < length work.now) }
    ensures { result ≡ row_in work.now class.now l f }
{
    let at = l.rows + class[f] as usize;
    work[at] as usize
}

// The conclusion of the class whose row stands at `row`.
pub fn row_conclusion(class: &[u32], row: usize) -> Pattern
    requires { row < length class.now }
    ensures { result.0 ≡ conclusion_in class.now row }
{
    Pattern(class[row])
}

// How many variables the class has whose row stands at `row`.
pub fn row_variables(class: &[u32], row: usize) -> usize
    requires { row + 2 < length class.now }
    ensures { result ≡ count_in class.now row }
{
    class[row + Row::VARIABLES] as usize
}
