// The steps' classes, and all tables without entries.
ghost use Rattle.class_build.specs.Ready.{Opened, Readies};

use crate::begin::begin_store;
use crate::places::{keying, layout};
use class_keys::classes::{Counts, Keying};
use class_keys::steps::key_steps;
use class_premises::layout::Layout;
use memo::memo::Memo;
use memo::part::begin;
use pack_tables::catalog::Catalog;
use store::nodes::Store;

// All is ready for the first class: where the keys and class building have their words, how many classes and needed steps there are, and a
// store and a memo without entries.
#[derive(Clone, Copy)]
pub struct Opening {
    pub keying: Keying,
    pub layout: Layout,
    pub counts: Counts,
    pub store: Store,
    pub memo: Memo,
}

// Each step's class stands in the first words of `class`, and all is ready for the first class to be made. `None` where there is no room
// for the steps' words.
pub fn make_ready(
    pack: &[u8],
    work: &mut [u32],
    class: &mut [u32],
    words: &[u32],
    cells: &[u32],
    c: Catalog,
) -> Option<Opening>
    requires { Opened pack.now work.old words.now cells.now c }
    ensures { Readies pack.now work.old class.old words.now cells.now work.new class.new c result }
{
    if class.len() < c.count(work, Catalog::STEPS) {
        return None;
    }
    let k = keying(c);
    let nodes = c.count(work, Catalog::NODES);
    let l = layout(work, words, cells, k, nodes);
    let counts = key_steps(pack, work, class, c, k);
    let store = begin_store(work, words, l);
    let memo = begin(work, l.copied, l.walk);
    Some(Opening {
        keying: k,
        layout: l,
        counts,
        store,
        memo,
    })
}
