// One kind's records in a region of work: how many, where each stands in the pack, and a probe table of their keys, which are
// compared in the pack's own bytes.
ghost use Rattle.std.specs.Prelude.{◌≡◌, [], ◌∷◌, ◌++◌, ◌+◌, ◌*◌, ◌<◌, ◌≤◌, length};
ghost use Rattle.definition.specs.Test.{same};
ghost use Rattle.base.specs.Hash.{hash_of};
ghost use Rattle.pack_tables.specs.Place.{key_at, end_of};
ghost use Rattle.pack_tables.specs.Region.{size_for, count_in, place_in, places, hashes_for, slots_in, Kept, Keyed, Finds, Enters, Emptied, Searching, Probed, appended, Appending, Entering};
ghost use Rattle.definition.specs.Answer.{most_work};

use crate::header::Header;
use base::hash::hash;
use buffer::little::u32_at;

// A record put behind the others, or one whose key is there already.
#[derive(Clone, Copy)]
pub enum Entered {
    New,
    Old,
}

// A region's words: how many records there are; two for each, where it stands and where its key starts; the slots of a probe table.
#[derive(Clone, Copy)]
pub struct Region(pub usize);

impl Region {
    // So many words a record, and where they stand from the words of the records ahead of it on.
    pub const PLACE: usize = 2;

    pub const AT: usize = 1;

    pub const KEY: usize = 2;
    // So many hashes and slots a record that there is room for, and one more.
    pub const HASHES: usize = 2;

    pub const SLOTS: usize = 3;
}

// Behind the record at `at`.
pub fn end_of(pack: &[u8], at: usize) -> usize
    requires { at + 6 ≤ length pack.now }
    ensures { result ≡ end_of pack.now at }
{
    let n = u32_at(pack, at) as usize;
    at + Header::SIZE + n
}

// The key of record `i`.
pub fn key_of<'a>(pack: &'a [u8], region: &[u32], cap: usize, i: usize) -> &'a [u8]
    requires { Kept pack.now region.now cap × (i < count_in region.now) }
    ensures { result.now ≡ key_at pack.now (place_in region.now i) }
{
    let at = region[Region::PLACE * i + Region::AT] as usize;
    let from = region[Region::PLACE * i + Region::KEY] as usize;
    let end = end_of(pack, at);
    &pack[from..end]
}

// Whether record `i` has this key.
fn has(pack: &[u8], region: &[u32], cap: usize, i: usize, key: &[u8]) -> bool
    requires { Kept pack.now region.now cap × (i < count_in region.now) }
    ensures { result ≡ same (key_at pack.now (place_in region.now i)) key.now }
{
    let own = key_of(pack, region, cap, i);
    own == key
}

// The slot that holds the key, or, as `Err`, the first free one from its hash on.
fn probe(
    pack: &[u8],
    slots: &[u32],
    region: &[u32],
    cap: usize,
    h: usize,
    key: &[u8],
) -> Result<usize, usize>
    requires { Searching pack.now slots.now region.now cap h key.now }
    ensures { Probed pack.now slots.now region.now h key.now result }
{
    let mut s = h;
    loop {
        let id = slots[s];
        if id == 0 {
            break Err(s);
        }
        if has(pack, region, cap, (id - 1) as usize, key) {
            break Ok(s);
        }
        s += 1;
    }
}

// The same in the whole region: `Ok` at the slot that has the key, `Err` at the first free one.
fn search(pack: &[u8], region: &[u32], cap: usize, key: &[u8]) -> Result<usize, usize>
    requires { Keyed pack.now region.now cap }
    ensures { Probed pack.now (slots_in region.now cap) region.now (hash_of (hashes_for cap) key.now) key.now result }
{
    let h = hash(Region::HASHES * cap + 1, key);
    let a = Region::PLACE * cap + Region::AT;
    probe(
        pack,
        &region[a..a + (Region::SLOTS * cap + 1)],
        region,
        cap,
        h,
        key,
    )
}

// The record that has this key, or none.
pub fn find(pack: &[u8], region: &[u32], cap: usize, key: &[u8]) -> Option<usize>
    requires { Keyed pack.now region.now cap }
    ensures { Finds pack.now region.now key.now result }
{
    let Ok(s) = search(pack, region, cap, key) else {
        return None;
    };
    let a = Region::PLACE * cap + Region::AT;
    let id = region[a + s];
    Some((id - 1) as usize)
}

// A record more, behind the others; the slots are left as they were.
fn append(region: &mut [u32], cap: usize, at: usize, from: usize)
    requires { Appending region.old cap at from }
    ensures { region.new ≡ appended region.old at from }
{
    let n = region[0] as usize;
    region[Region::PLACE * n + Region::AT] = at as u32;
    region[Region::PLACE * n + Region::KEY] = from as u32;
    region[0] = n as u32 + 1;
}

// A record more of a kind without keys.
pub fn push(pack: &[u8], region: &mut [u32], cap: usize, at: usize, from: usize)
    requires { Kept pack.now region.old cap × Entering pack.now region.old cap (record { at = at; from = from }) }
    ensures { (places region.new ≡ places region.old ++ (record { at = at; from = from } ∷ [])) × Kept pack.now region.new cap }
{
    append(region, cap, at, from);
}

// A record more, unless one has its key.
pub fn enter(pack: &[u8], region: &mut [u32], cap: usize, at: usize, from: usize) -> Entered
    requires { Keyed pack.now region.old cap × Entering pack.now region.old cap (record { at = at; from = from }) }
    ensures { Enters pack.now region.old region.new cap (record { at = at; from = from }) result }
{
    let end = end_of(pack, at);
    let Err(s) = search(pack, region, cap, &pack[from..end]) else {
        return Entered::Old;
    };
    append(region, cap, at, from);
    let id = region[0];
    let a = Region::PLACE * cap + Region::AT;
    region[a + s] = id;
    Entered::New
}

// A region without records; the slots of a kind without keys are never read.
pub fn clear(region: &mut [u32], cap: usize, keys: bool)
    requires { (length region.old ≡ size_for cap) × (cap < most_work) }
    ensures { Emptied region.new cap keys }
{
    region[0] = 0;
    if !keys {
        return;
    }
    let a = Region::PLACE * cap + Region::AT;
    region[a..a + (Region::SLOTS * cap + 1)].fill(0);
}
