// The values of a rule's variables, in work.
ghost use Rattle.std.specs.Prelude.{[], ◌+◌, ◌<◌, ◌≤◌, length};
ghost use Rattle.definition.specs.Pack.{most_variables};
ghost use Rattle.definition.specs.Store.{nothing};
ghost use Rattle.base.specs.Outside.{Outside};
ghost use Rattle.emit_maps.specs.Map.{Mapped};
ghost use Rattle.emit_match.specs.Values.{Binds};

use base::limit::Limit;

// No variable has a value, whatever stands from `at` on.
pub fn clear_values(work: &mut [u32], at: usize)
    requires { at + most_variables ≤ length work.old }
    ensures empty { Mapped work.new at most_variables [] }
    ensures frame { Outside at (at + most_variables) work.old work.new }
{
    let to = at + Limit::VARIABLES;
    work[at..to].fill(0);
}

// Variable `k` is given pattern `p`: its first value is kept, every later one must be the same.
pub fn bind(work: &mut [u32], at: usize, k: usize, p: u32) -> bool
    requires { (at + most_variables ≤ length work.old) × (k < most_variables) × (p < nothing) }
    ensures value { Binds work.old work.new at k p result }
    ensures frame { Outside at (at + most_variables) work.old work.new }
{
    let i = at + k;
    let v = work[i];
    if v == 0 {
        work[i] = p + 1;
        return true;
    }
    v == p + 1
}
