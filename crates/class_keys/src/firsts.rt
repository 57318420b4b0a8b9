// The first step of each judgment: a word a ground node, in work.
ghost use Rattle.std.specs.Prelude.{◌≡◌, ◌+◌, ◌<◌, length};
ghost use Rattle.definition.specs.Keys.{first_of};
ghost use Rattle.base.specs.Outside.{Outside};
ghost use Rattle.pack_tables.specs.Catalog.{records_of};
ghost use Rattle.pack_read.specs.Held.{OfHeld};
ghost use Rattle.class_keys.specs.Firsts.{Placed, Noted};

use pack_read::step::step_judgment;
use pack_tables::catalog::Catalog;

// For each ground node that a step has as its judgment the first such step is noted, from `at` on: the steps are gone over from the
// last to the first, so an earlier one is written over a later one.
pub fn note_firsts(pack: &[u8], work: &mut [u32], c: Catalog, at: usize)
    requires { Placed pack.now work.old c at }
    ensures noted { Noted pack.now work.new c at }
    ensures frame { Outside at (at + length (records_of work.old c 3)) work.old work.new }
{
    let steps = c.count(work, Catalog::STEPS);
    for s in (0..steps).rev() {
        let n = step_judgment(pack, work, c, s).0 as usize;
        work[at + n] = s as u32;
    }
}

// The first step with the judgment of step `s`.
pub fn first_of(pack: &[u8], work: &[u32], c: Catalog, at: usize, s: usize) -> usize
    requires { Noted pack.now work.now c at × (s < length (records_of work.now c 4)) }
    ensures { OfHeld pack.now work.now c (λ P. result ≡ first_of P s) }
{
    let n = step_judgment(pack, work, c, s).0 as usize;
    work[at + n] as usize
}
