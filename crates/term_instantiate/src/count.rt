// The numbers of a rule's variables as an environment.
ghost use Rattle.std.specs.Prelude.{◌≡◌, ◌≤◌, length, take};
ghost use Rattle.definition.specs.Graph.{up_to};
ghost use Rattle.definition.specs.Pack.{most_variables};

// The first `n` words are the numbers below `n`; what stands behind them is left open.
pub fn count_up(env: &mut [u32], n: usize)
    requires { (n ≤ length env.old) × (n ≤ most_variables) }
    ensures { take n env.new ≡ up_to n }
{
    for i in 0..n {
        env[i] = i as u32;
    }
}
