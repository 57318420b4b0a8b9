// The class of a key, by a probe table: a slot is 0 or the number of a class and one; a class's key is its first step's.
ghost use Rattle.std.specs.Prelude.{◌≡◌, ◌<◌, length};
ghost use Rattle.definition.specs.Test.{same};
ghost use Rattle.pack_tables.specs.Catalog.{records_of};
ghost use Rattle.pack_read.specs.Held.{OfHeld};
ghost use Rattle.class_keys.specs.Table.{class_key, Tabled, Searching, Probed, Sought};

use crate::classes::{Keying, class_first};
use crate::key::write_key;
use base::hash::hash;
use base::limit::Limit;
use pack_tables::catalog::Catalog;

// Whether class `i` of `m` has this key.
fn has_key(
    pack: &[u8],
    work: &[u32],
    class: &[u32],
    c: Catalog,
    k: Keying,
    m: usize,
    i: usize,
    key: &[u32],
) -> bool
    requires { Tabled pack.now work.now class.now c k m × (i < m) }
    ensures { OfHeld pack.now work.now c (λ P. result ≡ same (class_key P work.now class.now k i) key.now) }
{
    let f = class_first(work, k, i);
    let mut own = [0; Limit::PREMISES + Keying::REFS];
    let n = write_key(pack, work, class, c, k.at, f, &mut own);
    (&own[0..n]) == key
}

// `Ok` is the class that has the key; where none has it, `Err` is the first free slot from its hash on.
fn probe(
    pack: &[u8],
    work: &[u32],
    class: &[u32],
    c: Catalog,
    k: Keying,
    m: usize,
    h: usize,
    key: &[u32],
) -> Result<usize, usize>
    requires { Searching pack.now work.now class.now c k m h key.now }
    ensures { Probed pack.now work.now class.now c k m h key.now result }
{
    let a = k.at + Keying::SLOTS * k.cap;
    let mut t = h;
    loop {
        let id = work[a + t];
        if id == 0 {
            break Err(t);
        }
        let i = (id - 1) as usize;
        if has_key(pack, work, class, c, k, m, i, key) {
            break Ok(i);
        }
        t += 1;
    }
}

// The same for the key of step `s`: `Ok` with the class that has it, `Err` with the first free slot.
pub fn search(
    pack: &[u8],
    work: &[u32],
    class: &[u32],
    c: Catalog,
    k: Keying,
    m: usize,
    s: usize,
) -> Result<usize, usize>
    requires { Tabled pack.now work.now class.now c k m × (s < length (records_of work.now c 4)) }
    ensures { Sought pack.now work.now class.now c k m s result }
{
    let mut key = [0; Limit::PREMISES + Keying::REFS];
    let n = write_key(pack, work, class, c, k.at, s, &mut key);
    let steps = c.count(work, Catalog::STEPS);
    let h = hash(Keying::HASHES * steps + 1, &key[0..n]);
    probe(pack, work, class, c, k, m, h, &key[0..n])
}
