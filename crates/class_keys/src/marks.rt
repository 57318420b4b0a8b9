// Marks of the needed steps: a word a step, 1 or 0.
ghost use Rattle.std.specs.Prelude.{◌≡◌, map, ◌<◌, ◌≤◌, length};
ghost use Rattle.definition.specs.Pack.{step_of};
ghost use Rattle.definition.specs.Keys.{first_of, needed};
ghost use Rattle.base.specs.Outside.{Outside};
ghost use Rattle.pack_tables.specs.Catalog.{records_of};
ghost use Rattle.pack_read.specs.Held.{OfHeld};
ghost use Rattle.class_keys.specs.Firsts.{Noted};
ghost use Rattle.class_keys.specs.Marks.{Marked, mark_all, mark_step, mark_below, result_steps};

use crate::cut::step_is_cut;
use crate::firsts::first_of;
use pack_read::goal::result_step;
use pack_read::step::{step_ref, step_refs};
use pack_tables::catalog::Catalog;

// The first steps of the refs of step `s` are marked.
fn mark_refs(pack: &[u8], work: &[u32], marks: &mut [u32], c: Catalog, at: usize, s: usize)
    requires { Noted pack.now work.now c at × (length (records_of work.now c 4) ≤ length marks.old) × (s < length (records_of work.now c 4)) }
    ensures { OfHeld pack.now work.now c (λ P. marks.new ≡ mark_all marks.old (map (first_of P) (step_of P s).refs)) }
{
    let n = step_refs(pack, work, c, s);
    for i in 0..n {
        let r = step_ref(pack, work, c, s, i) as usize;
        let f = first_of(pack, work, c, at, r);
        marks[f] = 1;
    }
}

// What step `s` needs is marked, if it is itself marked: nothing if it is cut.
fn mark_step(pack: &[u8], work: &[u32], marks: &mut [u32], c: Catalog, at: usize, s: usize)
    requires { Noted pack.now work.now c at × (length (records_of work.now c 4) ≤ length marks.old) × (s < length (records_of work.now c 4)) }
    ensures { OfHeld pack.now work.now c (λ P. marks.new ≡ mark_step P s marks.old) }
{
    if marks[s] == 0 {
        return;
    }
    if step_is_cut(pack, work, c, s) {
        return;
    }
    mark_refs(pack, work, marks, c, at, s);
}

// The steps are gone over from the last to the first.
fn mark_steps(pack: &[u8], work: &[u32], marks: &mut [u32], c: Catalog, at: usize)
    requires { Noted pack.now work.now c at × (length (records_of work.now c 4) ≤ length marks.old) }
    ensures { OfHeld pack.now work.now c (λ P. marks.new ≡ mark_below (length P.steps) P marks.old) }
{
    let steps = c.count(work, Catalog::STEPS);
    for s in (0..steps).rev() {
        mark_step(pack, work, marks, c, at, s);
    }
}

// The first steps of the results' steps are marked.
fn mark_results(pack: &[u8], work: &[u32], marks: &mut [u32], c: Catalog, at: usize)
    requires { Noted pack.now work.now c at × (length (records_of work.now c 4) ≤ length marks.old) }
    ensures { OfHeld pack.now work.now c (λ P. marks.new ≡ mark_all marks.old (result_steps P)) }
{
    let n = c.count(work, Catalog::RESULTS);
    for i in 0..n {
        let s = result_step(pack, work, c, i) as usize;
        let f = first_of(pack, work, c, at, s);
        marks[f] = 1;
    }
}

// The first words, one a step, become marks of the needed steps.
pub fn mark_needed(pack: &[u8], work: &[u32], marks: &mut [u32], c: Catalog, at: usize)
    requires { Noted pack.now work.now c at × (length (records_of work.now c 4) ≤ length marks.old) }
    ensures marked { OfHeld pack.now work.now c (λ P. Marked (length P.steps) marks.new (needed P)) }
    ensures frame { Outside 0 (length (records_of work.now c 4)) marks.old marks.new }
{
    let n = c.count(work, Catalog::STEPS);
    marks[0..n].fill(0);
    mark_results(pack, work, marks, c, at);
    mark_steps(pack, work, marks, c, at);
}
