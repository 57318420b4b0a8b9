// The copy of one pattern node: a variable with its mark, an application over the copies of its arguments.
ghost use Rattle.std.specs.Prelude.{◌≡◌, map, ◌+◌, ◌-◌, ◌*◌, ◌≤◌, ◌<◌, length, get_or, drop};
ghost use Rattle.definition.specs.Store.{variable_head, nothing};
ghost use Rattle.definition.specs.Graph.{variable_vertex, applied};
ghost use Rattle.base.specs.Outside.{Outside};
ghost use Rattle.memo.specs.Recall.{recall, Remembers};
ghost use Rattle.graph.specs.Cells.{mark_in};
ghost use Rattle.graph.specs.Links.{Holds};
ghost use Rattle.term_copy.specs.Places.{table_in, rows_in, copy_in, Apart};
ghost use Rattle.term_copy.specs.Steps.{mark_at, Arguments, Key, Notes, Grows, vertex_for, number_for, CopiesNode};
ghost use Rattle.graph.specs.Places.{pairs_at};

use base::id::{Node, Pattern};
use graph::graph::Graph;
use graph::places::pairs_at;
use memo::memo::Memo;

// Where copying has its tables in work: the store's index; what pattern nodes were copied to, a memo of two words each; the walk's
// stack, two words for each; a word for each variable of the class, its graph node and one or 0; the graph's table.
#[derive(Clone, Copy)]
pub struct Copying {
    pub index: usize,
    pub copied: usize,
    pub walk: usize,
    pub variables: usize,
    pub graph: usize,
    pub end: usize,
}

// What pattern `q` was copied to, or node 0.
pub fn copy_of(work: &[u32], l: Copying, memo: Memo, q: Pattern) -> Node
    requires { (l.copied ≤ l.walk) × (l.walk ≤ length work.now) × (q.0 < length (recall (table_in work.now l) memo)) }
    ensures { result.0 ≡ copy_in work.now l memo q.0 }
{
    Node(memo.get(&work[l.copied..l.walk], q.0 as usize).unwrap_or(0))
}

// The copies of a key's arguments.
fn gather(work: &[u32], l: Copying, memo: Memo, key: &[u32], args: &mut [u32])
    requires { (l.copied ≤ l.walk) × (l.walk ≤ length work.now) × Arguments work.now l memo key.now × (length args.old ≡ length key.now - 1) }
    ensures { args.new ≡ map (copy_in work.now l memo) (drop 1 key.now) }
{
    for i in 0..args.len() {
        args[i] = copy_of(work, l, memo, Pattern(key[i + 1])).0;
    }
}

// The mark of variable `k`.
fn mark_of(flex: &[u32], k: u32) -> u32
    ensures { mark_in result ≡ mark_at flex.now k }
{
    let i = k as usize;
    if i < flex.len() {
        return flex[i];
    }
    0
}

// The node with a key was copied to node `x`: if it is a variable of the class, its word says so.
fn note(work: &mut [u32], l: Copying, flex: &[u32], key: &[u32], x: Node)
    requires { (l.variables + length flex.now ≤ l.graph) × (l.graph ≤ length work.old) × (x.0 < nothing) × (0 < length key.now) × (get_or key.now 0 0 ≡ variable_head → length key.now ≡ 3) }
    ensures { Outside l.variables l.graph work.old work.new × Notes work.old work.new flex.now l (number_for key.now) x.0 }
{
    if key[0] != Pattern::VAR {
        return;
    }
    let i = key[1] as usize;
    if i < flex.len() {
        work[l.variables + i] = x.0 + 1;
    }
}

// A fresh variable with the mark of variable `k`; none where the cells have no room.
fn copy_variable(
    work: &mut [u32],
    cells: &mut [u32],
    l: Copying,
    g: Graph,
    flex: &[u32],
    k: u32,
    sort: u32,
) -> Option<(Node, Graph)>
    requires { (l.graph + pairs_at (length cells.old) ≤ length work.old) × Holds cells.old (rows_in work.old cells.old l) g }
    ensures { Grows work.old work.new cells.old cells.new l g (variable_vertex sort (mark_at flex.now k) (mark_in 0)) result }
{
    let mark = mark_of(flex, k);
    let end = l.graph + pairs_at(cells);
    g.var(cells, &mut work[l.graph..end], sort, mark, 0)
}

// An application over the copies of its arguments; none where the cells have no room.
fn copy_application(
    work: &mut [u32],
    cells: &mut [u32],
    l: Copying,
    memo: Memo,
    g: Graph,
    key: &[u32],
) -> Option<(Node, Graph)>
    requires { (l.copied ≤ l.walk) × (l.walk ≤ l.graph) × (l.graph + pairs_at (length cells.old) ≤ length work.old) × Holds cells.old (rows_in work.old cells.old l) g × Arguments work.old l memo key.now }
    ensures { Grows work.old work.new cells.old cells.new l g (applied (get_or key.now 0 0) (map (copy_in work.old l memo) (drop 1 key.now))) result }
{
    let n = key.len() - 1;
    if g.lacks_room(cells, n) {
        return None;
    }
    let rows_end = l.graph + pairs_at(cells);
    let first = g.used + 1;
    let end = first + n;
    gather(work, l, memo, key, &mut cells[first..end]);
    g.push_laid(cells, &mut work[l.graph..rows_end], key[0], end)
}

// A copy of the node with a key; none where the cells have no room.
fn push_copy(
    work: &mut [u32],
    cells: &mut [u32],
    l: Copying,
    memo: Memo,
    g: Graph,
    flex: &[u32],
    key: &[u32],
) -> Option<(Node, Graph)>
    requires { Apart work.old cells.old flex.now l × Holds cells.old (rows_in work.old cells.old l) g × Key work.old l memo key.now }
    ensures { Grows work.old work.new cells.old cells.new l g (vertex_for work.old l memo flex.now key.now) result }
{
    if key[0] == Pattern::VAR {
        return copy_variable(work, cells, l, g, flex, key[1], key[2]);
    }
    copy_application(work, cells, l, memo, g, key)
}

// Pattern `p` with a key is copied, and the memo and the variables' words say so; none where the cells have no room.
pub fn copy_node(
    work: &mut [u32],
    cells: &mut [u32],
    l: Copying,
    memo: Memo,
    g: Graph,
    flex: &[u32],
    p: Pattern,
    key: &[u32],
) -> Option<(Node, Graph)>
    requires { Apart work.old cells.old flex.now l × Holds cells.old (rows_in work.old cells.old l) g × Key work.old l memo key.now × Remembers (table_in work.old l) memo × (p.0 < length (recall (table_in work.old l) memo)) }
    ensures { CopiesNode work.old work.new cells.old cells.new flex.now l memo g p.0 key.now result }
{
    let (x, h) = push_copy(work, cells, l, memo, g, flex, key)?;
    note(work, l, flex, key, x);
    memo.insert(&mut work[l.copied..l.walk], p.0 as usize, x.0);
    Some((x, h))
}
