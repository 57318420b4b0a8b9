// A graph's nodes: head and arguments of each in the graph's cells; five words of each in a table, of which two stand in front.
ghost use Rattle.std.specs.Prelude.{◌≡◌, [], ◌+◌, ◌*◌, ◌-◌, ◌≤◌, ◌<◌, leb, length};
ghost use Rattle.definition.specs.Graph.{variable_vertex, applied};
ghost use Rattle.graph.specs.Cells.{link_word, mark_in, rows_end, Laid, Shows, Unchanged};
ghost use Rattle.graph.specs.Links.{Holds, Found};
ghost use Rattle.graph.specs.Nodes.{RootOf};
ghost use Rattle.graph.specs.Joins.{Apart, Joins, Shares, Binds, HeadOf};
ghost use Rattle.graph.specs.Pushes.{Rows, Next, Pushes, arguments_to};
ghost use Rattle.definition.specs.Store.{nothing};

use base::copy::copy_cells;
use base::id::{Ground, Node, Pattern};

// How many nodes there are, and how many cells they take.
#[derive(Clone, Copy)]
pub struct Graph {
    pub nodes: usize,
    pub used: usize,
}

impl Graph {
    // So many words of a node stand in front: where it starts in the cells, its link and one or 0. Behind the last where the next starts.
    pub const FRONT: usize = 2;

    const LINK: usize = 1;
    // So many behind all of these: its sort, whether it is flexible, whether it is rigid.
    pub const BACK: usize = 3;

    pub const FLEX: usize = 1;

    pub const RIGID: usize = 2;

    // The link of node `x` and one, or 0.
    fn link(self, cells: &[u32], table: &[u32], x: usize) -> u32
        requires { Laid cells.now table.now self × (x < self.nodes) }
        ensures { result ≡ link_word table.now x }
    {
        table[Graph::FRONT * x + Graph::LINK]
    }

    // Whether node `x` is a root.
    pub fn is_root(self, cells: &[u32], table: &[u32], x: Node) -> bool
        requires { Laid cells.now table.now self × (x.0 < self.nodes) }
        ensures { RootOf cells.now table.now self x.0 result }
    {
        self.link(cells, table, x.0 as usize) == 0
    }

    // The root of node `x`. On the way there each second node is linked to the one behind its next, which changes no root.
    pub fn find(self, cells: &[u32], table: &mut [u32], x: Node) -> Node
        requires { Holds cells.now table.old self × (x.0 < self.nodes) }
        ensures { Found cells.now table.old table.new self x.0 result.0 }
    {
        let mut at = x.0;
        loop {
            let up = self.link(cells, table, at as usize);
            if up == 0 {
                return Node(at);
            }
            let y = up - 1;
            let upper = self.link(cells, table, y as usize);
            if upper == 0 {
                return Node(y);
            }
            table[Graph::FRONT * at as usize + Graph::LINK] = upper;
            at = upper - 1;
        }
    }

    // The head of node `x`.
    pub fn head(self, cells: &[u32], table: &[u32], x: Node) -> u32
        requires { Laid cells.now table.now self × (x.0 < self.nodes) }
        ensures { HeadOf cells.now table.now self x.0 result }
    {
        let i = x.0 as usize;
        let start = table[Graph::FRONT * i] as usize;
        cells[start]
    }

    // Root `x` is linked to root `y`.
    pub fn join(self, cells: &[u32], table: &mut [u32], x: Node, y: Node)
        requires { Laid cells.now table.old self × Apart table.old self x.0 y.0 }
        ensures { Joins cells.now table.old table.new self x.0 y.0 }
    {
        let i = x.0 as usize;
        table[Graph::FRONT * i + Graph::LINK] = y.0 + 1;
    }

    // Variable `y` becomes flexible if `x` is.
    fn share_flex(self, cells: &[u32], table: &mut [u32], x: Node, y: Node)
        requires { Laid cells.now table.old self × Apart table.old self x.0 y.0 }
        ensures { Shares cells.now table.old table.new self x.0 y.0 }
    {
        if self.head(cells, table, y) != Pattern::VAR {
            return;
        }
        let rest = Graph::FRONT * cells.len() + Graph::FRONT;
        let i = x.0 as usize;
        if table[rest + (Graph::BACK * i + Graph::FLEX)] == 0 {
            return;
        }
        let j = y.0 as usize;
        table[rest + (Graph::BACK * j + Graph::FLEX)] = 1;
    }

    // Root `x`, a variable, is bound to root `y`.
    pub fn bind(self, cells: &[u32], table: &mut [u32], x: Node, y: Node)
        requires { Laid cells.now table.old self × Apart table.old self x.0 y.0 }
        ensures { Binds cells.now table.old table.new self x.0 y.0 }
    {
        self.share_flex(cells, table, x, y);
        self.join(cells, table, x, y);
    }

    // No node: a graph is cleared by a new one, since every cell and row is written before it is read.
    pub fn new(cells: &[u32], table: &mut [u32]) -> Graph
        requires { (rows_end cells.now ≤ length table.old) × (length cells.now < nothing) }
        ensures { Shows cells.now table.new result [] × Unchanged (rows_end cells.now) table.old table.new }
    {
        table[0] = 0;
        Graph { nodes: 0, used: 0 }
    }

    // The words of the next node, whose cells end at `end`; the node, and the graph with it.
    fn put_row(
        self,
        cells: &[u32],
        table: &mut [u32],
        sort: u32,
        flex: u32,
        rigid: u32,
        end: usize,
    ) -> (Node, Graph)
        requires { (self.nodes < length cells.now) × (rows_end cells.now ≤ length table.old) × (self.nodes < 4294967296) × (end < 4294967296) }
        ensures { Rows cells.now table.old table.new self sort flex rigid end × Next self end result }
    {
        let at = Graph::FRONT * self.nodes;
        table[at + Graph::LINK] = 0;
        table[at + Graph::FRONT] = end as u32;
        let rest = Graph::FRONT * cells.len() + Graph::FRONT + Graph::BACK * self.nodes;
        table[rest] = sort;
        table[rest + Graph::FLEX] = flex;
        table[rest + Graph::RIGID] = rigid;
        let n = self.nodes;
        (
            Node(n as u32),
            Graph {
                nodes: n + 1,
                used: end,
            },
        )
    }

    // A variable more, its node and the graph that has it; a mark is set or 0. None where the cells have no room.
    pub fn var(
        self,
        cells: &mut [u32],
        table: &mut [u32],
        sort: u32,
        flex: u32,
        rigid: u32,
    ) -> Option<(Node, Graph)>
        requires { Laid cells.old table.old self }
        ensures { Pushes cells.old cells.new table.old table.new self (variable_vertex sort (mark_in flex) (mark_in rigid)) result }
    {
        let at = self.used;
        if cells.len() <= at {
            return None;
        }
        cells[at] = Pattern::VAR;
        Some(self.put_row(cells, table, sort, flex, rigid, at + 1))
    }

    // Whether there is no room behind the last node for one of `n` arguments.
    pub fn lacks_room(self, cells: &[u32], n: usize) -> bool
        requires { self.used ≤ length cells.now }
        ensures { result ≡ leb (length cells.now - self.used) n }
    {
        cells.len() - self.used <= n
    }

    // An application more, whose arguments stand behind the place of its head, up to `end`: its node and the graph that has it, always.
    pub fn push_laid(
        self,
        cells: &mut [u32],
        table: &mut [u32],
        head: u32,
        end: usize,
    ) -> Option<(Node, Graph)>
        requires { Laid cells.old table.old self × (self.used + 1 ≤ end) × (end ≤ length cells.old) }
        ensures { Pushes cells.old cells.new table.old table.new self (applied head (arguments_to cells.old self end)) result }
    {
        cells[self.used] = head;
        Some(self.put_row(cells, table, Ground::NONE, 0, 0, end))
    }

    // An application more, its node and the graph that has it; none where the cells have no room.
    pub fn push(
        self,
        cells: &mut [u32],
        table: &mut [u32],
        head: u32,
        args: &[u32],
    ) -> Option<(Node, Graph)>
        requires { Laid cells.old table.old self }
        ensures { Pushes cells.old cells.new table.old table.new self (applied head args.now) result }
    {
        if self.lacks_room(cells, args.len()) {
            return None;
        }
        let first = self.used + 1;
        let end = first + args.len();
        copy_cells(args, &mut cells[first..end]);
        self.push_laid(cells, table, head, end)
    }
}
