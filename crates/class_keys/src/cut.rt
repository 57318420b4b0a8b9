// Cut steps.
ghost use Rattle.std.specs.Prelude.{◌≡◌, ◌<◌, length};
ghost use Rattle.definition.specs.Keys.{predicate_of, is_a_cut};
ghost use Rattle.pack_tables.specs.Catalog.{records_of};
ghost use Rattle.pack_read.specs.Held.{Held, OfHeld};
ghost use Rattle.pack_reader.specs.Marks.{Marks};

use pack_read::node::node_head;
use pack_read::step::step_judgment;
use pack_reader::cut::cut_mark;
use pack_tables::catalog::Catalog;

// The predicate of the judgment of step `s`.
pub fn step_predicate(pack: &[u8], work: &[u32], c: Catalog, s: usize) -> u32
    requires { Held pack.now work.now c × (s < length (records_of work.now c 4)) }
    ensures { OfHeld pack.now work.now c (λ P. result ≡ predicate_of P s) }
{
    let n = step_judgment(pack, work, c, s);
    node_head(pack, work, c, n)
}

// Whether that predicate is cut.
pub fn step_is_cut(pack: &[u8], work: &[u32], c: Catalog, s: usize) -> bool
    requires { Held pack.now work.now c × Marks pack.now work.now c × (s < length (records_of work.now c 4)) }
    ensures { OfHeld pack.now work.now c (λ P. result ≡ is_a_cut P (predicate_of P s)) }
{
    let p = step_predicate(pack, work, c, s) as usize;
    if cut_mark(pack, work, c, p) == 0 {
        return false;
    }
    true
}
