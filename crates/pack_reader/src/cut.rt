// Cuts, and the marks of the predicates that have one.
ghost use Rattle.std.specs.Prelude.{◌≡◌, ◌+◌, ◌<◌, ◌≤◌, length};
ghost use Rattle.definition.specs.Certificate.{take_cut};
ghost use Rattle.pack_tables.specs.Catalog.{Fits, Cataloged};
ghost use Rattle.pack_reader.specs.Taking.{Reading, Whole, behind};
ghost use Rattle.pack_reader.specs.Sound.{Sound};
ghost use Rattle.pack_reader.specs.Marks.{marks_at, mark_of, Marks, Advances};

use crate::taken::Fault;
use base::id::Ground;
use buffer::little::u32_at;
use pack_read::symbol::{symbol_arity, symbol_output};
use pack_tables::catalog::Catalog;
use pack_tables::field::Field;
use pack_tables::header::Header;
use pack_tables::row::all_below;

// Where the mark of symbol `h` stands.
fn mark_place(work: &[u32], c: Catalog, h: usize) -> usize
    requires { Fits work.now c × (marks_at c + c.cap ≤ length work.now) × (h < c.cap) }
    ensures { result ≡ marks_at c + h }
{
    c.at + Catalog::TABLES * (Catalog::RECORD * c.cap + Catalog::MORE) + h
}

// The mark of symbol `h`: 0, or the number of its cut and one.
pub fn cut_mark(pack: &[u8], work: &[u32], c: Catalog, h: usize) -> usize
    requires { Cataloged pack.now work.now c × Marks pack.now work.now c × (h < c.cap) }
    ensures { result ≡ mark_of work.now c h }
{
    let m = mark_place(work, c, h);
    work[m] as usize
}

// A cut: a predicate that has none yet, and positions below its arity.
pub fn take_cut(
    pack: &[u8],
    body: &[u8],
    work: &mut [u32],
    c: Catalog,
    at: usize,
) -> Result<(), Fault>
    requires { Reading pack.now work.old c at × Whole pack.now body.now at × Sound pack.now work.old c × Marks pack.now work.old c }
    ensures { Advances pack.now work.old work.new c (behind at body.now) (λ P. take_cut P body.now) result }
{
    if body.len() < Field::CUT_OUTPUTS {
        return Err(Fault::Bad);
    }
    let predicate = u32_at(body, 0) as usize;
    if c.count(work, Catalog::SYMBOLS) <= predicate {
        return Err(Fault::Bad);
    }
    if symbol_output(pack, work, c, predicate) != Ground::PROP {
        return Err(Fault::Bad);
    }
    let positions = (body.len() - Field::CUT_OUTPUTS) / Field::WORD;
    if body.len() != Field::CUT_OUTPUTS + Field::WORD * positions {
        return Err(Fault::Bad);
    }
    let arity = symbol_arity(pack, work, c, predicate);
    if !all_below(body, Field::CUT_OUTPUTS, positions, arity) {
        return Err(Fault::Bad);
    }
    if cut_mark(pack, work, c, predicate) != 0 {
        return Err(Fault::Bad);
    }
    c.push(pack, work, Catalog::CUTS, at, at + Header::SIZE);
    let m = mark_place(work, c, predicate);
    work[m] = c.count(work, Catalog::CUTS) as u32;
    Ok(())
}
