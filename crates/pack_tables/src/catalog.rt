// The regions of all kinds, one behind the other in work, by the numbers of their tables.
ghost use Rattle.std.specs.Prelude.{◌≡◌, true, false, ◌+◌, ◌*◌, ◌<◌, ◌≤◌, length, get_or};
ghost use Rattle.pack_tables.specs.Place.{no_place};
ghost use Rattle.pack_tables.specs.Catalog.{start_of, cap_of, records_of, keyed_kind, Fits, Cataloged, EnteringIn, SoughtIn, EntersIn, More, Cleared};

use crate::region::{Entered, Region};

// Where the first region starts, and for how many records each has room at most.
#[derive(Clone, Copy)]
pub struct Catalog {
    pub at: usize,
    pub cap: usize,
}

// Whether the records of a kind have keys.
fn has_keys(kind: usize) -> bool
    ensures { result ≡ keyed_kind kind }
{
    if kind == Catalog::STEPS {
        return false;
    }
    if kind == Catalog::CUTS {
        return false;
    }
    kind != Catalog::ABSTRACTS
}

impl Catalog {
    // The tables in the order of document 01's kinds, from 0 on.
    pub const SORTS: usize = 0;

    pub const SYMBOLS: usize = 1;

    pub const RULES: usize = 2;

    pub const NODES: usize = 3;

    pub const STEPS: usize = 4;

    pub const GOALS: usize = 5;

    pub const RESULTS: usize = 6;

    pub const CUTS: usize = 7;

    pub const ABSTRACTS: usize = 8;

    pub const TABLES: usize = 9;
    // Sorts, symbols and rules have a limit; a table of them has room for one more than the greatest.
    pub const LIMITED: usize = 4097;
    // A table has so many words for each record that it has room for, and so many more.
    pub const RECORD: usize = 5;

    pub const MORE: usize = 2;

    // For how many records of a kind there is room.
    fn cap_of(self, kind: usize) -> usize
        ensures { result ≡ cap_of self kind }
    {
        if Catalog::NODES <= kind {
            return self.cap;
        }
        if self.cap <= Catalog::LIMITED {
            return self.cap;
        }
        Catalog::LIMITED
    }

    // Where the region of a kind starts.
    fn start(self, work: &[u32], kind: usize) -> usize
        requires { Fits work.now self × (kind < 9) }
        ensures { result ≡ start_of self kind }
    {
        self.at + kind * (Catalog::RECORD * self.cap + Catalog::MORE)
    }

    // How many records of a kind there are.
    pub fn count(self, work: &[u32], kind: usize) -> usize
        requires { Fits work.now self × (kind < 9) }
        ensures { result ≡ length (records_of work.now self kind) }
    {
        let a = self.start(work, kind);
        work[a] as usize
    }

    // A word of record `i` of a kind, by where it stands from the words of the records ahead of it on.
    fn word(self, pack: &[u8], work: &[u32], kind: usize, i: usize, offset: usize) -> usize
        requires { Cataloged pack.now work.now self × (kind < 9) × (i < length (records_of work.now self kind)) × (offset ≤ 2) }
        ensures { result ≡ get_or work.now (start_of self kind + (2 * i + offset)) 0 }
    {
        let a = self.start(work, kind);
        work[a + (Region::PLACE * i + offset)] as usize
    }

    // Where record `i` of a kind stands in the pack.
    pub fn place(self, pack: &[u8], work: &[u32], kind: usize, i: usize) -> usize
        requires { Cataloged pack.now work.now self × (kind < 9) × (i < length (records_of work.now self kind)) }
        ensures { result ≡ (get_or (records_of work.now self kind) i no_place).at }
    {
        self.word(pack, work, kind, i, Region::AT)
    }

    // Where its key starts.
    pub fn key_place(self, pack: &[u8], work: &[u32], kind: usize, i: usize) -> usize
        requires { Cataloged pack.now work.now self × (kind < 9) × (i < length (records_of work.now self kind)) }
        ensures { result ≡ (get_or (records_of work.now self kind) i no_place).from }
    {
        self.word(pack, work, kind, i, Region::KEY)
    }

    // The record of a kind that has this key, or none.
    pub fn find(self, pack: &[u8], work: &[u32], kind: usize, key: &[u8]) -> Option<usize>
        requires { Cataloged pack.now work.now self × (kind < 9) × (keyed_kind kind ≡ true) }
        ensures { SoughtIn pack.now (records_of work.now self kind) key.now result }
    {
        let a = self.start(work, kind);
        let cap = self.cap_of(kind);
        crate::region::find(
            pack,
            &work[a..a + (Catalog::RECORD * cap + Catalog::MORE)],
            cap,
            key,
        )
    }

    // A record more of a kind with keys, unless one has its key.
    pub fn enter(
        self,
        pack: &[u8],
        work: &mut [u32],
        kind: usize,
        at: usize,
        from: usize,
    ) -> Entered
        requires { EnteringIn pack.now work.old self kind (record { at = at; from = from }) × (keyed_kind kind ≡ true) }
        ensures { EntersIn pack.now work.old work.new self kind (record { at = at; from = from }) result }
    {
        let a = self.start(work, kind);
        let cap = self.cap_of(kind);
        crate::region::enter(
            pack,
            &mut work[a..a + (Catalog::RECORD * cap + Catalog::MORE)],
            cap,
            at,
            from,
        )
    }

    // A record more of a kind without keys.
    pub fn push(self, pack: &[u8], work: &mut [u32], kind: usize, at: usize, from: usize)
        requires { EnteringIn pack.now work.old self kind (record { at = at; from = from }) × (keyed_kind kind ≡ false) }
        ensures { More pack.now work.old work.new self kind (record { at = at; from = from }) }
    {
        let a = self.start(work, kind);
        let cap = self.cap_of(kind);
        crate::region::push(
            pack,
            &mut work[a..a + (Catalog::RECORD * cap + Catalog::MORE)],
            cap,
            at,
            from,
        );
    }

    // No records, with room for `cap` of each kind.
    pub fn new(work: &mut [u32], at: usize, cap: usize) -> Catalog
        requires { Fits work.old (record { at = at; cap = cap }) }
        ensures { (result ≡ record { at = at; cap = cap }) × Cleared work.old work.new result }
    {
        let c = Catalog { at: at, cap: cap };
        for k in 0..Catalog::TABLES {
            let a = c.start(work, k);
            let n = c.cap_of(k);
            let keys = has_keys(k);
            crate::region::clear(
                &mut work[a..a + (Catalog::RECORD * n + Catalog::MORE)],
                n,
                keys,
            );
        }
        c
    }
}
