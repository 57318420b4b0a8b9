// Entries into the map of hypotheses, and that map emptied: no trail has them.
ghost use Rattle.std.specs.Prelude.{ℕ, ◌<◌, ◌≤◌, length, get_or};
ghost use Rattle.definition.specs.Store.{nothing};
ghost use Rattle.emit_maps.specs.Map.{Laid};
ghost use Rattle.emit_maps.specs.Holds.{Supposes, Drops};

use crate::maps::{Maps, place};

// The hypotheses have `n` for `p` from now on.
pub fn enter_hyp(work: &mut [u32], m: Maps, p: u32, n: u32)
    requires { Laid work.old m × (p < m.room) × (n < nothing) }
    ensures { Supposes work.old work.new m p n }
{
    let at = place(m, Maps::HYPS, p);
    work[at] = n + 1;
}

// The hypotheses have nothing for the first `n` of `keys` from now on.
pub fn drop_hyps(work: &mut [u32], m: Maps, keys: &[u32], n: usize)
    requires { Laid work.old m × (n ≤ length keys.now) × ((i : ℕ) → i < n → get_or keys.now i 0 < m.room) }
    ensures { Drops work.old work.new m keys.now n }
{
    for &key in &keys[..n] {
        let at = place(m, Maps::HYPS, key);
        work[at] = 0;
    }
}
