// Copying patterns and reading them back, as C calls it.
#![tactic(auto)]

ghost use Rattle.std.specs.Prelude.{◌≡◌, length};
ghost use Rattle.host_walk.specs.Came.{Left};
ghost use Rattle.host_walk.specs.Copies.{copy_leaves};

use host_walk::answer::Walked;
use host_walk::copies;

// Each node in `from` is interned in order, pattern `p` of them is copied `copies` times into one graph, and the last copy is read back
// unless `read` is 0.
#[unsafe(no_mangle)]
pub extern "C" fn copy_pattern(
    pack: &[u8],
    from: &[u32],
    flex: &[u32],
    p: u64,
    copies: u64,
    read: u64,
    patterns: &mut [u32],
    cells: &mut [u32],
    work: &mut [u32],
) -> Walked
    ensures { ◌≡◌ {A = Left} (record { answer = result; patterns = patterns.new; cells = cells.new; work = work.new }) (copy_leaves pack.now from.now flex.now p copies read (length patterns.old) (length cells.old) (length work.old)) }
{
    copies::copy_pattern(pack, from, flex, p, copies, read, patterns, cells, work)
}
