// Entries into the four maps that a restore gives back, and the trail of those that were made.
ghost use Rattle.std.specs.Prelude.{◌≡◌, ◌+◌, ◌*◌, ◌<◌, ◌≤◌, set};
ghost use Rattle.definition.specs.Store.{nothing};
ghost use Rattle.emit_maps.specs.Map.{Laid, restorable};
ghost use Rattle.emit_maps.specs.Trail.{entry_at, Counted, Entries, Marks};
ghost use Rattle.emit_maps.specs.Holds.{Enters, Undoes};

use crate::maps::{Maps, place};

// The place `at` of a map's word goes onto the trail, if the word is 0. The answer is the trail's length.
fn mark(work: &mut [u32], m: Maps, at: usize, trail: usize) -> usize
    requires { Laid work.old m × (m.at ≤ at) × (at < m.at + restorable * m.room) × Counted work.old m trail }
    ensures { Marks work.old work.new m at trail result }
{
    if work[at] != 0 {
        return trail;
    }
    let end = m.at + Maps::MAPS * m.room + trail;
    work[end] = at as u32;
    trail + 1
}

// A map has `n` for `p` from now on. The answer is the trail's length: one more if the map had nothing for `p`.
pub fn enter(work: &mut [u32], m: Maps, map: usize, p: u32, n: u32, trail: usize) -> usize
    requires { Laid work.old m × (map < restorable) × (p < m.room) × (n < nothing) × Counted work.old m trail }
    ensures { Enters work.old work.new m map p n trail result }
{
    let at = place(m, map, p);
    let length = mark(work, m, at, trail);
    work[at] = n + 1;
    length
}

// The word that entry `i` of the trail names becomes 0.
fn clear_entry(work: &mut [u32], m: Maps, i: usize)
    requires { Laid work.old m × (i < restorable * m.room) × (entry_at work.old m i < m.at + restorable * m.room) }
    ensures { work.new ≡ set work.old (entry_at work.old m i) 0 }
{
    let entry = m.at + Maps::MAPS * m.room + i;
    let at = work[entry] as usize;
    work[at] = 0;
}

// The entries of the trail from `from` up to `to` are taken back, the last one first.
pub fn undo(work: &mut [u32], m: Maps, from: usize, to: usize)
    requires { Laid work.old m × (from ≤ to) × (to ≤ restorable * m.room) × Entries work.old m from to }
    ensures { Undoes work.old work.new m from to }
{
    for i in (from..to).rev() {
        clear_entry(work, m, i);
    }
}
