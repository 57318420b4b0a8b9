// The patterns still to be matched, on a stack.
ghost use Rattle.std.specs.Prelude.{◌+◌, ◌<◌, ◌≤◌, length};
ghost use Rattle.emit_match.specs.Pushed.{ArgumentsOn};

use base::stack::Stack;

// The arguments of a node, given by its head and them, are put on the stack, the last one first.
pub fn push_arguments(work: &mut [u32], key: &[u32], s: Stack) -> Stack
    requires { (0 < length key.now) × (s.at + s.len + length key.now ≤ length work.old + 1) }
    ensures { ArgumentsOn work.old work.new key.now s result }
{
    let mut on = s;
    for i in (1..key.len()).rev() {
        on = on.push(work, key[i]);
    }
    on
}
