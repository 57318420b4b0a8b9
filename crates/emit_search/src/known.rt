// Judgments that have a line.
ghost use Rattle.std.specs.Prelude.{◌<◌};
ghost use Rattle.definition.specs.Store.{nothing};
ghost use Rattle.emit_state.specs.Places.{maps_of};
ghost use Rattle.emit_maps.specs.Map.{Laid};
ghost use Rattle.emit_search.specs.Known.{Recalls, Remembering, Remembered};

use emit_maps::maps::{Maps, look};
use emit_maps::trail::enter;
use emit_state::places::Places;
use emit_state::standing::Standing;
use memo::part::clear;
use store::nodes::Store;

// The line of a judgment that was proved, else of one that is supposed; none if it is neither.
pub fn known(work: &[u32], l: Places, j: u32) -> Option<u32>
    requires { Laid work.now (maps_of l) × (j < l.room) }
    ensures { Recalls work.now l j result }
{
    let maps = l.maps();
    match look(work, maps, Maps::PROVED, j) {
        Some(n) => Some(n),
        None => look(work, maps, Maps::HYPS, j),
    }
}

// Judgment `j` was proved by line `n`: it is kept and the failures are forgotten, but not under hypotheses.
pub fn remember(work: &mut [u32], l: Places, m: Standing, j: u32, n: u32) -> Standing
    requires { Remembering work.old l m × (j < l.room) × (n < nothing) }
    ensures { Remembered work.old work.new l m j n result }
{
    if m.hyps != 0 {
        return m;
    }
    // Number by number: a store that is only moved whole is kept in the frame of each level several times.
    let st = m.store;
    let store = Store {
        len: st.len,
        used: st.used,
        hashes: st.hashes,
    };
    let maps = l.maps();
    let trail = enter(work, maps, Maps::PROVED, j, n, m.trail);
    let from = l.failed();
    let to = l.replaced();
    let old = m.failed;
    let failed = clear(work, from, to, old);
    Standing {
        store: store,
        text: m.text,
        steps: m.steps,
        definitions: m.definitions,
        variables: m.variables,
        inductions: m.inductions,
        trail: trail,
        failed: failed,
        hyps: m.hyps,
    }
}
