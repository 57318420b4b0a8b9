// The tables of class building without entries: the store's index and lifting's words.
ghost use Rattle.class_build.specs.Begin.{Indexable, StoreBegun};

use class_premises::layout::Layout;
use store::nodes::Store;
use term_lift::lift::Lifted;

// A store without nodes, and nothing lifted into it.
pub fn begin_store(work: &mut [u32], words: &[u32], l: Layout) -> Store
    requires { Indexable work.old words.now l }
    ensures { StoreBegun work.old work.new words.now l result }
{
    let from = l.lifted + Lifted::NODE * l.nodes;
    let st = Store::new(&mut work[from..l.copied], words);
    l.lifting().clear(work);
    st
}
