// The flex mark of a graph's node.
ghost use Rattle.class_rule.specs.Flex.{FlexAsked, MarkOf};

use base::id::Node;
use class_premises::layout::Layout;
use graph::graph::Graph;

// 1 if node `x` is flexible, else 0.
pub fn flex_mark(work: &[u32], cells: &[u32], l: Layout, g: Graph, x: Node) -> u32
    requires { FlexAsked work.now cells.now l g x.0 }
    ensures { MarkOf work.now cells.now l g x.0 result }
{
    if g.is_flexible(cells, &work[l.graph..l.end], x) {
        return 1;
    }
    0
}
