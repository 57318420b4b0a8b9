// The values of a rule's variables.
ghost use Rattle.std.specs.Prelude.{◌<◌, length};
ghost use Rattle.definition.specs.Store.{nothing};
ghost use Rattle.check_steps.specs.Values.{Binds};

use base::id::Ground;

// Variable `k` is given node `n`: its first value is kept, every later one must be the same node.
pub fn bind(values: &mut [u32], k: usize, n: Ground) -> bool
    requires { (k < length values.old) × (n.0 < nothing) }
    ensures { Binds values.old values.new k n.0 result }
{
    let v = values[k];
    if v == 0 {
        values[k] = n.0 + 1;
        return true;
    }
    v == n.0 + 1
}
