// Where the lines of a goal are read.
ghost use Rattle.std.specs.Prelude.{◌≡◌};
ghost use Rattle.text_goals.specs.Form.{ground_of};

use memo::memo::Memo;
use text_write::source::Source;

// The patterns of the store; where the memo of the variables' values stands in work, behind which the stack of a walk begins, and that
// memo; where the row of the goal's class stands; and the budget of each value.
#[derive(Clone, Copy)]
pub struct Form {
    pub patterns: Source,
    pub values: usize,
    pub stack: usize,
    pub memo: Memo,
    pub row: usize,
    pub budget: u64,
}

// The pack's ground nodes in place of patterns.
pub fn on_ground(s: Source) -> Source
    ensures { result ≡ ground_of s }
{
    Source {
        is_ground: true,
        ..s
    }
}
