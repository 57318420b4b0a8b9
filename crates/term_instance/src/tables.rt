// Where the instance test has its tables, and the worklist's pairs.
ghost use Rattle.std.specs.Prelude.{◌≡◌, ◌+◌, ◌*◌, ◌<◌, length, set};

use base::id::{Ground, Pattern};
use base::stack::Frame;
use memo::memo::Memo;
use pack_tables::catalog::Catalog;
use store::nodes::Store;

// Where the instance test has its tables in work: the store's index, the worklist (two words a pair), what pattern nodes were matched
// with (a memo of two words each), and the values of variables (a memo of two words each).
#[derive(Clone, Copy)]
pub struct Instance {
    pub index: usize,
    pub pairs: usize,
    pub seen: usize,
    pub values: usize,
    pub end: usize,
}

// What the instance test has at hand: the pack's tables, its own, the store, and the memos of what pattern nodes were matched with and of
// variables' values.
#[derive(Clone, Copy)]
pub struct Test {
    pub catalog: Catalog,
    pub tables: Instance,
    pub store: Store,
    pub seen: Memo,
    pub values: Memo,
}

// Pattern `p` and ground node `n` are put behind `top` other pairs.
pub fn put_pair(work: &mut [u32], l: Instance, top: usize, p: Pattern, n: Ground)
    requires { l.pairs + 2 * top + 1 < length work.old }
    ensures { work.new ≡ set (set work.old (l.pairs + 2 * top) p.0) (l.pairs + 2 * top + 1) n.0 }
{
    let at = l.pairs + Frame::WORDS * top;
    work[at] = p.0;
    work[at + Frame::SECOND] = n.0;
}
