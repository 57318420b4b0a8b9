// The maps: where their words stand, all of them empty, one of them asked.
ghost use Rattle.std.specs.Prelude.{◌≡◌, ◌+◌, ◌*◌, ◌<◌, ◌≤◌};
ghost use Rattle.emit_maps.specs.Map.{start, Laid, many_maps, places_named, words_each};
ghost use Rattle.emit_maps.specs.Holds.{Looks, Begins};

// Where the maps stand in work, one behind the other, and behind them the trail. A map's word is 0, or a number and one.
#[derive(Clone, Copy)]
pub struct Maps {
    // Where the first map starts.
    pub at: usize,
    // How many patterns a map has a word for.
    pub room: usize,
}

impl Maps {
    // The lines of judgments that were proved.
    pub const PROVED: usize = 0;
    // The lines of judgments that the steps derived.
    pub const DERIVED: usize = 1;
    // The numbers of definitions.
    pub const DEFS: usize = 2;
    // The numbers of case variables.
    pub const NAMES: usize = 3;
    // The lines of hypotheses.
    pub const HYPS: usize = 4;
    // So many maps; the trail is behind them.
    pub const MAPS: usize = 5;
    // So many words a pattern, with four for the trail: an entry for each map but the hypotheses.
    pub const WORDS: usize = 9;
}

// Where the word of `p` stands in a map.
pub fn place(m: Maps, map: usize, p: u32) -> usize
    requires { (map < many_maps) × (p < m.room) × (m.at + words_each * m.room ≤ places_named) }
    ensures { result ≡ start m map + p }
{
    m.at + map * m.room + p as usize
}

// What a map has for `p`, if it has something.
pub fn look(work: &[u32], m: Maps, map: usize, p: u32) -> Option<u32>
    requires { Laid work.now m × (map < many_maps) × (p < m.room) }
    ensures { Looks work.now m map p result }
{
    let word = work[place(m, map, p)];
    if word == 0 {
        return None;
    }
    Some(word - 1)
}

// All maps become empty, whatever stands there. A trail of no entries goes with them.
pub fn begin(work: &mut [u32], m: Maps)
    requires { Laid work.old m }
    ensures { Begins work.old work.new m }
{
    let from = m.at;
    let to = from + Maps::MAPS * m.room;
    work[from..to].fill(0);
}
