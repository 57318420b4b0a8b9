// Cells copied from one part to another, one by one: an archive for C then needs no `memmove` from outside, as it would by the library's
// `copy_from_slice`.
ghost use Rattle.std.specs.Prelude.{◌≡◌, length};

// `to` becomes `from`.
pub fn copy_cells<T: Copy>(from: &[T], to: &mut [T])
    requires { length from.now ≡ length to.old }
    ensures { to.new ≡ from.now }
{
    for i in 0..from.len() {
        to[i] = from[i];
    }
}
