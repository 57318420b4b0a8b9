// A value behind a place of a buffer, or all over it.
ghost use Rattle.std.specs.Prelude.{◌≡◌};
ghost use Rattle.buffer.specs.Zero.{filled};

// Each cell from `from` on becomes `value`; a `from` past the end changes nothing.
pub fn fill_from<T: Copy>(cells: &mut [T], from: usize, value: T)
    ensures { cells.new ≡ filled value from cells.old }
{
    for i in from..cells.len() {
        cells[i] = value;
    }
}
