// The copies' variables read back in their order.
ghost use Rattle.std.specs.Prelude.{◌≡◌, ◌<◌, length, get_or};
ghost use Rattle.definition.specs.Pack.{no_node};
ghost use Rattle.definition.specs.Store.{is_variable};
ghost use Rattle.definition.specs.Classes.{mark};
ghost use Rattle.store.specs.Stored.{nodes};
ghost use Rattle.term_lift.specs.Kept.{Indexed};
ghost use Rattle.class_premises.specs.Standing.{lifted_of};
ghost use Rattle.class_conclude.specs.Entries.{OneAsked, OneReads, AllAsked, AllReads};

use base::id::{Node, Pattern};
use class_premises::layout::Layout;
use graph::graph::Graph;
use graph::places::copies_at;
use pack_tables::catalog::Catalog;
use store::nodes::Store;
use term_lift::lift::Lifted;
use term_readback::resolve::resolve;
use term_readback::table::{Reading, Table};

// 1 if pattern `p` is a variable, else 0.
fn renames(work: &[u32], words: &[u32], l: Layout, st: Store, p: Pattern) -> usize
    requires { Indexed work.now words.now (lifted_of l) st × (p.0 < length (nodes words.now st)) }
    ensures { result ≡ mark (is_variable (get_or (nodes words.now st) p.0 no_node)) }
{
    let from = l.lifted + Lifted::NODE * l.nodes;
    if st.head(&work[from..l.copied], words, p) == Pattern::VAR {
        return 1;
    }
    0
}

// Variable `i` of the copies, behind so many numbered: the store as it is then, how many variables are numbered, and 1 if the pattern is
// a variable, else 0. `None` where the words have no room.
fn read_entry(
    pack: &[u8],
    work: &mut [u32],
    words: &mut [u32],
    cells: &[u32],
    c: Catalog,
    l: Layout,
    st: Store,
    g: Graph,
    numbered: usize,
    i: usize,
) -> Option<(Store, usize, usize)>
    requires { OneAsked pack.now work.old words.old cells.now c l st g numbered i }
    ensures { OneReads pack.now work.old words.old work.new words.new cells.now c l st g numbered i result }
{
    let at = l.graph + copies_at(cells);
    let x = Node(work[at + i]);
    let t = Table {
        at: l.graph,
        end: l.end,
    };
    let reading = Reading {
        catalog: c,
        lifted: l.lifting(),
        table: t,
        graph: g,
        everyone: false,
    };
    let (p, more, n) = resolve(pack, work, words, cells, reading, st, numbered, x)?;
    let k = renames(work, words, l, more, p);
    Some((more, n, k))
}

// All of them, so many: the store as it is then, how many variables are numbered, and how many of the patterns are variables. `None`
// where the words have no room.
pub fn read_entries(
    pack: &[u8],
    work: &mut [u32],
    words: &mut [u32],
    cells: &[u32],
    c: Catalog,
    l: Layout,
    st: Store,
    g: Graph,
    numbered: usize,
    copies: usize,
) -> Option<(Store, usize, usize)>
    requires { AllAsked pack.now work.old words.old cells.now c l st g numbered copies }
    ensures { AllReads pack.now work.old words.old work.new words.new cells.now c l st g numbered copies result }
{
    let mut grown = st;
    let mut n = numbered;
    let mut renamings: usize = 0;
    for i in 0..copies {
        let (more, m, k) = read_entry(pack, work, words, cells, c, l, grown, g, n, i)?;
        grown = more;
        n = m;
        renamings += k;
    }
    Some((grown, n, renamings))
}
