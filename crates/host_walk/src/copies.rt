// A pattern copied so many times into one graph, and its last copy read back.
ghost use Rattle.std.specs.Prelude.{◌≡◌, ◌≤◌, ◌<◌, length};
ghost use Rattle.term_copy.specs.Places.{rows_at};
ghost use Rattle.host_walk.specs.Came.{Left, lent_to, opened};
ghost use Rattle.host_walk.specs.Walks.{Walks};
ghost use Rattle.host_walk.specs.Places.{Opened};
ghost use Rattle.host_walk.specs.Copies.{pack_copied, copy_leaves};
ghost use Rattle.host_walk.specs.Times.{NewGraph, Started, Timed};
ghost use Rattle.host_walk.specs.CopyCalls.{copying_of, Small, LastOf, LastsOf, CopyableOf, CopiedOf, StockedOf, FromStockOf, Marked, FromList, FromPack};
ghost use Rattle.definition.specs.Store.{nothing};

use crate::answer::{Walked, leave};
use crate::back::read_back;
use crate::list::{Fault, read_list};
use crate::place::{Stock, lifting, open_store};
use base::id::{Node, Pattern};
use definition::Answer;
use dock_call::answer::outcome_answer;
use dock_call::lent::Lent;
use dock_call::opening::open_pack;
use graph::graph::Graph;
use graph::places::copies_at;
use memo::memo::Memo;
use memo::part::begin;
use pack_reader::read::tables;
use pack_tables::catalog::Catalog;
use store::nodes::Store;
use term_copy::copy::copy;
use term_copy::node::Copying;
use term_lift::lift::Lifted;
use term_readback::table::Table;

// A graph without nodes.
fn new_graph(work: &mut [u32], cells: &[u32], l: Copying) -> Graph
    requires { (rows_at cells.now l ≤ l.end) × (l.end ≤ length work.old) × (length cells.now < nothing) }
    ensures { NewGraph work.old work.new cells.now l result }
{
    let from = l.graph;
    let to = l.end;
    Graph::new(cells, &mut work[from..to])
}

// Pattern `p` is copied so many times, each time with variables of its own: the last copy, and the graph; none where the cells have no room.
fn copy_times(
    work: &mut [u32],
    words: &[u32],
    cells: &mut [u32],
    l: Copying,
    st: Store,
    flex: &[u32],
    p: Pattern,
    copies: u64,
) -> Option<(Node, Graph)>
    requires { Started work.old words.now cells.old flex.now l st p.0 }
    ensures { Timed work.old work.new words.now cells.old cells.new flex.now l st p.0 copies result }
{
    let mut memo = begin(work, l.copied, l.walk);
    let mut g = new_graph(work, cells, l);
    let mut last = Node(0);
    for _ in 0..copies {
        let (x, more, fresh) = copy(work, words, cells, l, st, memo, g, flex, p)?;
        last = x;
        g = more;
        memo = fresh;
    }
    Some((last, g))
}

// Where copying has its words: behind the store's index.
fn copying(l: Lifted, words: &[u32], cells: &[u32], flex: &[u32]) -> Copying
    requires { Small l (length words.now) (length cells.now) (length flex.now) }
    ensures { result ≡ copying_of l (length words.now) (length cells.now) (length flex.now) }
{
    let index = l.at + Lifted::NODE * l.nodes;
    let copied = l.end;
    let walk = copied + Memo::ENTRY * (words.len() / 2);
    let variables = walk + 2 * (words.len() / 2);
    let graph = variables + flex.len();
    let end = graph + copies_at(cells);
    Copying {
        index: index,
        copied: copied,
        walk: walk,
        variables: variables,
        graph: graph,
        end: end,
    }
}

// The last copy, node `x`, is read back, if it is asked for and there is one.
fn read_last(
    pack: &[u8],
    work: &mut [u32],
    words: &mut [u32],
    cells: &[u32],
    s: Stock,
    t: Table,
    g: Graph,
    x: Node,
    copies: u64,
    read: u64,
) -> Result<(Pattern, Store, usize, usize), Answer>
    requires { LastOf pack.now work.old words.old cells.now s t g x.0 copies }
    ensures { LastsOf pack.now work.old words.old words.new cells.now s t g x.0 copies read result }
{
    let st = s.store;
    if read == 0 {
        return Ok((Pattern(0), st, 0, g.used));
    }
    if copies == 0 {
        return Ok((Pattern(0), st, 0, g.used));
    }
    read_back(pack, work, words, cells, s.catalog, s.lifted, t, st, g, x)
}

// Pattern `p` of the store is copied, and the last copy read back.
fn copies_in(
    pack: &[u8],
    work: &mut [u32],
    words: &mut [u32],
    cells: &mut [u32],
    s: Stock,
    flex: &[u32],
    p: Pattern,
    copies: u64,
    read: u64,
) -> Result<(Pattern, Store, usize, usize), Answer>
    requires { CopyableOf pack.now work.old words.old cells.old flex.now s p.0 }
    ensures { CopiedOf pack.now work.old words.old words.new flex.now (length cells.old) s p.0 copies read result }
{
    let k = copying(s.lifted, words, cells, flex);
    let Some((x, g)) = copy_times(work, words, cells, k, s.store, flex, p, copies) else {
        return Err(Answer { code: 8, place: 3 });
    };
    let t = Table {
        at: k.graph,
        end: k.end,
    };
    read_last(pack, work, words, cells, s, t, g, x, copies, read)
}

// The same of a number that may be no pattern's, which is refused.
fn copy_from(
    pack: &[u8],
    work: &mut [u32],
    words: &mut [u32],
    cells: &mut [u32],
    s: Stock,
    flex: &[u32],
    p: u64,
    copies: u64,
    read: u64,
) -> Result<(Pattern, Store, usize, usize), Answer>
    requires { StockedOf pack.now work.old words.old cells.old flex.now s }
    ensures { FromStockOf pack.now work.old words.old words.new flex.now (length cells.old) s p copies read result }
{
    if s.store.len as u64 <= p {
        return Err(Answer { code: 12, place: 0 });
    }
    copies_in(
        pack,
        work,
        words,
        cells,
        s,
        flex,
        Pattern(p as u32),
        copies,
        read,
    )
}

// A store is made of the list, and its pattern `p` copied.
fn copy_listed(
    pack: &[u8],
    from: &[u32],
    work: &mut [u32],
    words: &mut [u32],
    cells: &mut [u32],
    c: Catalog,
    flex: &[u32],
    p: u64,
    copies: u64,
    read: u64,
) -> Result<(Pattern, Store, usize, usize), Answer>
    requires { Marked pack.now work.old (length words.old) (length cells.old) (length flex.now) c }
    ensures { FromList pack.now from.now work.old words.new flex.now (length words.old) (length cells.old) c p copies read result }
{
    let l = lifting(work, words, c);
    let empty = open_store(pack, work, words, c, l);
    match read_list(pack, from, work, words, c, l, empty) {
        Ok(st) => {
            let stock = Stock {
                catalog: c,
                lifted: l,
                store: st,
            };
            copy_from(pack, work, words, cells, stock, flex, p, copies, read)
        }
        Err(Fault::Broken) => Err(Answer { code: 12, place: 0 }),
        Err(Fault::Full) => Err(Answer { code: 8, place: 2 }),
    }
}

// The same with the marks counted.
fn copy_marked(
    pack: &[u8],
    from: &[u32],
    work: &mut [u32],
    words: &mut [u32],
    cells: &mut [u32],
    flex: &[u32],
    p: u64,
    copies: u64,
    read: u64,
) -> Result<(Pattern, Store, usize, usize), Answer>
    requires { Opened pack.now work.old (length words.old) (length cells.old) }
    ensures { FromPack pack.now from.now work.old words.new flex.now (length words.old) (length cells.old) p copies read result }
{
    if words.len() < flex.len() {
        return Err(Answer { code: 2, place: 0 });
    }
    let c = tables(pack);
    copy_listed(pack, from, work, words, cells, c, flex, p, copies, read)
}

// The lengths tested, the pack read, and the pattern copied.
fn walk_copies(
    pack: &[u8],
    from: &[u32],
    flex: &[u32],
    p: u64,
    copies: u64,
    read: u64,
    patterns: &mut [u32],
    cells: &mut [u32],
    work: &mut [u32],
) -> Result<(Pattern, Store, usize, usize), Answer>
    ensures { Walks patterns.new (opened (lent_to (length pack.now) (length patterns.old) (length cells.old) (length work.old)) pack.now (λ P. pack_copied P from.now flex.now p copies read (length patterns.old) (length cells.old))) result }
{
    let lent = Lent {
        pack: pack.len(),
        class: 0,
        pattern: patterns.len(),
        graph: cells.len(),
        work: work.len(),
        text: 0,
        goals: 0,
    };
    match open_pack(lent, pack, work) {
        Ok(()) => copy_marked(pack, from, work, patterns, cells, flex, p, copies, read),
        Err(r) => Err(outcome_answer(Err(r))),
    }
}

// Each node in `from` is interned in order, pattern `p` of them is copied `copies` times into one graph, and the last copy is read back
// unless `read` is 0.
pub fn copy_pattern(
    pack: &[u8],
    from: &[u32],
    flex: &[u32],
    p: u64,
    copies: u64,
    read: u64,
    patterns: &mut [u32],
    cells: &mut [u32],
    work: &mut [u32],
) -> Walked
    ensures { ◌≡◌ {A = Left} (record { answer = result; patterns = patterns.new; cells = cells.new; work = work.new }) (copy_leaves pack.now from.now flex.now p copies read (length patterns.old) (length cells.old) (length work.old)) }
{
    let walk = walk_copies(pack, from, flex, p, copies, read, patterns, cells, work);
    leave(walk, patterns, cells, work)
}
