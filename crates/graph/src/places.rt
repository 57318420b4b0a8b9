// Where the words of a graph's table stand behind its rows, by how many cells there are.
ghost use Rattle.std.specs.Prelude.{◌≡◌, ◌<◌, length};
ghost use Rattle.graph.specs.Places.{pairs_at, colours_at, values_at, patterns_at, numbers_at, copies_at, copies_end};

// The pairs that are left to be unified, or a walk's frames.
pub fn pairs_at(cells: &[u32]) -> usize
    requires { pairs_at (length cells.now) < 18446744073709551616 }
    ensures { result ≡ pairs_at (length cells.now) }
{
    5 * cells.len() + 5
}

// A colour of each node.
pub fn colours_at(cells: &[u32]) -> usize
    requires { colours_at (length cells.now) < 18446744073709551616 }
    ensures { result ≡ colours_at (length cells.now) }
{
    7 * cells.len() + 7
}

// The ground value of each node and one, or 0.
pub fn values_at(cells: &[u32]) -> usize
    requires { values_at (length cells.now) < 18446744073709551616 }
    ensures { result ≡ values_at (length cells.now) }
{
    8 * cells.len() + 7
}

// The pattern that each node was read back as and one, or 0.
pub fn patterns_at(cells: &[u32]) -> usize
    requires { patterns_at (length cells.now) < 18446744073709551616 }
    ensures { result ≡ patterns_at (length cells.now) }
{
    9 * cells.len() + 7
}

// The variable of each number.
pub fn numbers_at(cells: &[u32]) -> usize
    requires { numbers_at (length cells.now) < 18446744073709551616 }
    ensures { result ≡ numbers_at (length cells.now) }
{
    10 * cells.len() + 7
}

// The variables of copies.
pub fn copies_at(cells: &[u32]) -> usize
    requires { copies_at (length cells.now) < 18446744073709551616 }
    ensures { result ≡ copies_at (length cells.now) }
{
    11 * cells.len() + 7
}

// The end of the table for `n` cells.
pub fn copies_end(n: usize) -> usize
    requires { copies_end n < 18446744073709551616 }
    ensures { result ≡ copies_end n }
{
    12 * n + 7
}
