// What is asked of a node.
ghost use Rattle.std.specs.Prelude.{◌+◌, ◌<◌};
ghost use Rattle.graph.specs.Cells.{start_in, Laid};
ghost use Rattle.graph.specs.Nodes.{ArityOf, ArgumentOf, FreeOf, SortOf, FlexOf};

use crate::graph::Graph;
use base::id::{Node, Pattern};

impl Graph {
    // How many arguments node `x` has.
    pub fn arity(self, cells: &[u32], table: &[u32], x: Node) -> usize
        requires { Laid cells.now table.now self × (x.0 < self.nodes) }
        ensures { ArityOf cells.now table.now self x.0 result }
    {
        let i = x.0 as usize;
        let start = table[Graph::FRONT * i] as usize;
        let end = table[Graph::FRONT * i + Graph::FRONT] as usize;
        end - (start + 1)
    }

    // Its argument `i`.
    pub fn argument(self, cells: &[u32], table: &[u32], x: Node, i: usize) -> Node
        requires { Laid cells.now table.now self × (x.0 < self.nodes) × (start_in table.now x.0 + 1 + i < start_in table.now (x.0 + 1)) }
        ensures { ArgumentOf cells.now table.now self x.0 i result.0 }
    {
        let j = x.0 as usize;
        let start = table[Graph::FRONT * j] as usize;
        Node(cells[start + 1 + i])
    }

    // Whether it is a variable that may be bound.
    pub fn is_free(self, cells: &[u32], table: &[u32], x: Node) -> bool
        requires { Laid cells.now table.now self × (x.0 < self.nodes) }
        ensures { FreeOf cells.now table.now self x.0 result }
    {
        if self.head(cells, table, x) != Pattern::VAR {
            return false;
        }
        let i = x.0 as usize;
        table[Graph::FRONT * cells.len() + Graph::FRONT + (Graph::BACK * i + Graph::RIGID)] == 0
    }

    // Its sort.
    pub fn sort(self, cells: &[u32], table: &[u32], x: Node) -> u32
        requires { Laid cells.now table.now self × (x.0 < self.nodes) }
        ensures { SortOf cells.now table.now self x.0 result }
    {
        let i = x.0 as usize;
        table[Graph::FRONT * cells.len() + Graph::FRONT + Graph::BACK * i]
    }

    // Whether it is flexible.
    pub fn is_flexible(self, cells: &[u32], table: &[u32], x: Node) -> bool
        requires { Laid cells.now table.now self × (x.0 < self.nodes) }
        ensures { FlexOf cells.now table.now self x.0 result }
    {
        let i = x.0 as usize;
        0 < table[Graph::FRONT * cells.len() + Graph::FRONT + (Graph::BACK * i + Graph::FLEX)]
    }
}
