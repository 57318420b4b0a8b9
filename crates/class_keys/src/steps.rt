// The class of each step, from the first step on.
ghost use Rattle.std.specs.Prelude.{◌<◌, length};
ghost use Rattle.base.specs.Outside.{Outside};
ghost use Rattle.pack_tables.specs.Catalog.{records_of};
ghost use Rattle.class_keys.specs.ClassWords.{end_of, Keyable};
ghost use Rattle.class_keys.specs.Turns.{State, Begins, Turns, Clearing, Cleared};
ghost use Rattle.class_keys.specs.Keyed.{KeyedWork};

use crate::classes::{Class, Counts, Keying, begin_class, join_class};
use crate::firsts::note_firsts;
use crate::marks::mark_needed;
use crate::table::search;
use pack_tables::catalog::Catalog;

// The slots of the probe table are free; nothing else is written.
fn clear_slots(work: &mut [u32], k: Keying, n: usize)
    requires { Clearing work.old k n }
    ensures { Cleared work.old work.new k n }
{
    let a = k.at + Keying::SLOTS * k.cap;
    work[a..a + (Keying::PROBES * n + 1)].fill(0);
}

// First steps and marks are there, and no class yet; how many steps there are.
fn begin(pack: &[u8], work: &mut [u32], class: &mut [u32], c: Catalog, k: Keying) -> usize
    requires { Keyable pack.now work.old class.old c k }
    ensures { Begins pack.now work.old class.old work.new class.new c k result }
{
    let at = k.at;
    note_firsts(pack, work, c, at);
    mark_needed(pack, work, class, c, at);
    let n = c.count(work, Catalog::STEPS);
    clear_slots(work, k, n);
    n
}

// Step `s` gets its word: a step that is not marked has no class; another joins the class of its key, or begins it.
fn key_step(
    pack: &[u8],
    work: &mut [u32],
    class: &mut [u32],
    c: Catalog,
    k: Keying,
    s: usize,
    done: Counts,
) -> Counts
    requires { State pack.now work.old class.old c k s done × (s < length (records_of work.old c 4)) }
    ensures { Turns pack.now work.old class.old work.new class.new c k s result }
{
    if class[s] == 0 {
        class[s] = Class::NONE;
        return done;
    }
    let m = done.classes;
    match search(pack, work, class, c, k, m, s) {
        Ok(i) => {
            join_class(work, k, i);
            class[s] = i as u32;
            Counts {
                classes: m,
                needed: done.needed + 1,
            }
        }
        Err(t) => {
            begin_class(work, k, m, t, s);
            class[s] = m as u32;
            Counts {
                classes: m + 1,
                needed: done.needed + 1,
            }
        }
    }
}

// Each step's class number is written to the first words of `class`, 2^32−1 where it is not needed, and each class's first step and
// how many steps it has are noted in work.
pub fn key_steps(pack: &[u8], work: &mut [u32], class: &mut [u32], c: Catalog, k: Keying) -> Counts
    requires { Keyable pack.now work.old class.old c k }
    ensures keyed { KeyedWork pack.now work.new class.new c k result }
    ensures frame { Outside k.at (end_of k) work.old work.new }
    ensures classes { Outside 0 (length (records_of work.old c 4)) class.old class.new }
{
    let n = begin(pack, work, class, c, k);
    let mut done = Counts {
        classes: 0,
        needed: 0,
    };
    for s in 0..n {
        done = key_step(pack, work, class, c, k, s, done);
    }
    done
}
