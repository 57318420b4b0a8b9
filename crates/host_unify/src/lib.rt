// Unifies two nodes of a list, for the host's test and benchmark of the graph.
#![tactic(auto)]

ghost use Rattle.std.specs.Prelude.{◌≡◌, ◌+◌, ◌≤◌, ◌<◌, length, get_or, replicate};
ghost use Rattle.definition.specs.Store.{variable_head, nothing};
ghost use Rattle.graph.specs.Links.{Holds};
ghost use Rattle.graph.specs.Inner.{HoldsInner};
ghost use Rattle.graph_unify.specs.CircleWords.{colours_end};
ghost use Rattle.host_unify.specs.Solved.{Told, Left, unfit, bit, solved, leaves};
ghost use Rattle.host_unify.specs.Turns.{Reading, Turned, Reads};
ghost use Rattle.host_unify.specs.Tells.{Roots, Writes, Joins, Solves, Asks};

use base::below::all_below;
use base::id::{Node, Pattern};
use base::limit::Limit;
use graph::graph::Graph;
use graph::places::values_at;
use graph_unify::circle::circular;
use graph_unify::unify::unify;

// The answer: 0 joined, 1 a clash, 2 no such list or no such node, 3 lengths that do not fit; how many pairs were taken, and 1 if there is a circle.
#[repr(C)]
#[derive(Clone, Copy)]
pub struct Unification {
    pub code: u64,
    pub taken: u64,
    pub circular: u64,
}

// Why a list of nodes is not read: words of it are no node, or the cells have no room for one.
#[derive(Clone, Copy)]
enum Fault {
    Broken,
    Full,
}

// Whether the lengths do not fit each other.
fn lengths_unfit(cells: &[u32], work: usize) -> bool
    ensures { result ≡ unfit (length cells.now) work }
{
    if Limit::CELLS <= cells.len() {
        return true;
    }
    work < values_at(cells)
}

// The variable at `at` becomes a node more: the graph then, and where the variable ends.
fn read_var(
    terms: &[u32],
    cells: &mut [u32],
    work: &mut [u32],
    g: Graph,
    at: usize,
) -> Result<(Graph, usize), Fault>
    requires { Reading terms.now cells.old work.old g at × (at < length terms.now) × (get_or terms.now at 0 ≡ variable_head) }
    ensures { Turned terms.now cells.new work.new at result }
{
    if terms.len() - at < 4 {
        return Err(Fault::Broken);
    }
    let Some((_, h)) = g.var(cells, work, terms[at + 1], terms[at + 2], terms[at + 3]) else {
        return Err(Fault::Full);
    };
    Ok((h, at + 4))
}

// The application at `at` becomes a node more: the graph then, and where the application ends.
fn read_app(
    terms: &[u32],
    cells: &mut [u32],
    work: &mut [u32],
    g: Graph,
    at: usize,
) -> Result<(Graph, usize), Fault>
    requires { Reading terms.now cells.old work.old g at × (at < length terms.now) × (get_or terms.now at 0 ≡ variable_head → ⊥) }
    ensures { Turned terms.now cells.new work.new at result }
{
    if terms.len() - at < 2 {
        return Err(Fault::Broken);
    }
    let n = terms[at + 1] as usize;
    if terms.len() - (at + 2) < n {
        return Err(Fault::Broken);
    }
    let start = at + 2;
    let end = start + n;
    if !all_below(&terms[start..end], g.nodes) {
        return Err(Fault::Broken);
    }
    let Some((_, h)) = g.push(cells, work, terms[at], &terms[start..end]) else {
        return Err(Fault::Full);
    };
    Ok((h, end))
}

// The node at `at` becomes one of the graph.
fn read_node(
    terms: &[u32],
    cells: &mut [u32],
    work: &mut [u32],
    g: Graph,
    at: usize,
) -> Result<(Graph, usize), Fault>
    requires { Reading terms.now cells.old work.old g at × (at < length terms.now) }
    ensures { Turned terms.now cells.new work.new at result }
{
    if terms[at] == Pattern::VAR {
        return read_var(terms, cells, work, g, at);
    }
    read_app(terms, cells, work, g, at)
}

// A new graph, and a turn for each node of the list.
fn read_nodes(terms: &[u32], cells: &mut [u32], work: &mut [u32]) -> Result<Graph, Fault>
    requires { (colours_end cells.old ≤ length work.old) × (length cells.old < nothing) }
    ensures { Reads terms.now cells.new work.new result }
{
    let mut g = Graph::new(cells, work);
    let mut at = 0;
    while at < terms.len() {
        let (h, end) = read_node(terms, cells, work, g, at)?;
        g = h;
        at = end;
    }
    Ok(g)
}

// The number of each node's root.
fn write_roots(g: Graph, cells: &[u32], work: &mut [u32], roots: &mut [u32])
    requires { Holds cells.now work.old g × Roots roots.old g }
    ensures { Writes cells.now work.old roots.new g (length roots.old) }
{
    let n = g.nodes;
    for i in 0..n {
        let r = g.find(cells, work, Node(i as u32));
        roots[i] = r.0;
    }
}

// 1 or 0.
fn bit_of(b: bool) -> u64
    ensures { result ≡ bit b }
{
    if b {
        return 1;
    }
    0
}

// What is told of a graph after unification: below stage 2 no more than that.
fn tell_joined(
    g: Graph,
    cells: &[u32],
    work: &mut [u32],
    roots: &mut [u32],
    stage: u64,
    taken: usize,
) -> Unification
    requires { HoldsInner cells.now work.old g × Roots roots.old g × (colours_end cells.now ≤ length work.old) }
    ensures { Joins cells.now work.old g stage taken (record { answer = result; roots = roots.new }) (length roots.old) }
{
    if stage < 2 {
        return Unification {
            code: 0,
            taken: taken as u64,
            circular: 0,
        };
    }
    let circle = circular(g, cells, work);
    write_roots(g, cells, work, roots);
    Unification {
        code: 0,
        taken: taken as u64,
        circular: bit_of(circle),
    }
}

// The two nodes are unified; not at stage 0.
fn solve(
    g: Graph,
    cells: &[u32],
    work: &mut [u32],
    roots: &mut [u32],
    x: Node,
    y: Node,
    stage: u64,
) -> Unification
    requires { HoldsInner cells.now work.old g × Roots roots.old g × (colours_end cells.now ≤ length work.old) × (x.0 < g.nodes) × (y.0 < g.nodes) }
    ensures { Solves cells.now work.old g x.0 y.0 stage (record { answer = result; roots = roots.new }) (length roots.old) }
{
    if stage == 0 {
        return tell_joined(g, cells, work, roots, stage, 0);
    }
    match unify(g, cells, work, x, y) {
        Ok(n) => tell_joined(g, cells, work, roots, stage, n),
        Err(n) => Unification {
            code: 1,
            taken: n as u64,
            circular: 0,
        },
    }
}

// A refusal.
fn refusal(code: u64) -> Unification
    ensures { result ≡ record { code = code; taken = 0; circular = 0 } }
{
    Unification {
        code: code,
        taken: 0,
        circular: 0,
    }
}

// Nodes `x` and `y` are unified, if they are nodes and there is a place for each root.
fn ask(
    g: Graph,
    cells: &[u32],
    work: &mut [u32],
    roots: &mut [u32],
    x: u64,
    y: u64,
    stage: u64,
) -> Unification
    requires { HoldsInner cells.now work.old g × (colours_end cells.now ≤ length work.old) × (roots.old ≡ replicate (length roots.old) 0) }
    ensures { Asks cells.now work.old g x y stage (record { answer = result; roots = roots.new }) (length roots.old) }
{
    let n = g.nodes as u64;
    if n <= x {
        return refusal(2);
    }
    if n <= y {
        return refusal(2);
    }
    if roots.len() < g.nodes {
        return refusal(3);
    }
    solve(g, cells, work, roots, Node(x as u32), Node(y as u32), stage)
}

// The list is read and the two nodes are unified.
fn solve_list(
    terms: &[u32],
    x: u64,
    y: u64,
    stage: u64,
    roots: &mut [u32],
    cells: &mut [u32],
    work: &mut [u32],
) -> Unification
    requires { roots.old ≡ replicate (length roots.old) 0 }
    ensures { ◌≡◌ {A = Told} (record { answer = result; roots = roots.new }) (solved terms.now x y stage (length roots.old) (length cells.old) (length work.old)) }
{
    if lengths_unfit(cells, work.len()) {
        return refusal(3);
    }
    match read_nodes(terms, cells, work) {
        Ok(g) => ask(g, cells, work, roots, x, y, stage),
        Err(Fault::Broken) => refusal(2),
        Err(Fault::Full) => refusal(3),
    }
}

// Nodes `x` and `y` of the list `terms` are unified in a graph over `cells` and `work`, and the numbers of all roots are written to `roots`.
// At stage 0 nothing is unified; below stage 2 nothing is tested for circles and no root is written, so that a host can time unification alone.
#[unsafe(no_mangle)]
pub extern "C" fn unify_nodes(
    terms: &[u32],
    x: u64,
    y: u64,
    stage: u64,
    roots: &mut [u32],
    cells: &mut [u32],
    work: &mut [u32],
) -> Unification
    ensures { ◌≡◌ {A = Left} (record { answer = result; roots = roots.new; cells = cells.new; work = work.new }) (leaves terms.now x y stage (length roots.old) (length cells.old) (length work.old)) }
{
    roots.fill(0);
    let answer = solve_list(terms, x, y, stage, roots, cells, work);
    cells.fill(0);
    work.fill(0);
    answer
}
