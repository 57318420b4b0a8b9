// The nodes still to be matched, on a stack.
ghost use Rattle.std.specs.Prelude.{◌≡◌, ◌+◌, ◌<◌, ◌≤◌, length};
ghost use Rattle.definition.specs.Pack.{node_of, step_of};
ghost use Rattle.pack_read.specs.Held.{Held};
ghost use Rattle.check_steps.specs.Matching.{ArgumentsOn, JudgmentsOn};

use base::id::Ground;
use base::stack::Stack;
use pack_read::node::{node_argument, node_arity};
use pack_read::step::{step_judgment, step_ref, step_refs};
use pack_tables::catalog::Catalog;

// The arguments of node `n` are put on the stack, the last one first.
pub fn push_arguments(
    pack: &[u8],
    work: &[u32],
    c: Catalog,
    stack: &mut [u32],
    s: Stack,
    n: Ground,
) -> Stack
    requires { (H : Held pack.now work.now c) × (n.0 < length H.pack.nodes) × (s.at ≡ 0) × (length (node_of H.pack n.0).args + s.len ≤ length stack.old) }
    ensures { ArgumentsOn pack.now work.now c n.0 stack.old stack.new s result }
{
    let mut on = s;
    let arity = node_arity(pack, work, c, n);
    for i in (0..arity).rev() {
        on = on.push(stack, node_argument(pack, work, c, n, i).0);
    }
    on
}

// The judgment of step `i` is put on an empty stack, then those of its refs, the last one first.
pub fn push_judgments(pack: &[u8], work: &[u32], c: Catalog, stack: &mut [u32], i: usize) -> Stack
    requires { (H : Held pack.now work.now c) × (i < length H.pack.steps) × (length (step_of H.pack i).refs + 1 ≤ length stack.old) }
    ensures { JudgmentsOn pack.now work.now c i stack.new result }
{
    let empty = Stack { at: 0, len: 0 };
    let mut on = empty.push(stack, step_judgment(pack, work, c, i).0);
    let refs = step_refs(pack, work, c, i);
    for k in (0..refs).rev() {
        let r = step_ref(pack, work, c, i, k) as usize;
        on = on.push(stack, step_judgment(pack, work, c, r).0);
    }
    on
}
