// The abstract record.
ghost use Rattle.definition.specs.Certificate.{take_abstract};
ghost use Rattle.pack_reader.specs.Taking.{Reading, Whole, behind, Takes};
ghost use Rattle.pack_reader.specs.Sound.{Sound};

use crate::taken::Fault;
use base::id::Ground;
use buffer::little::u32_at;
use pack_read::symbol::{symbol_arity, symbol_output};
use pack_tables::catalog::Catalog;
use pack_tables::field::Field;
use pack_tables::header::Header;

// The abstract record, of which there may be one: a constructor and one of its positions.
pub fn take_abstract(
    pack: &[u8],
    body: &[u8],
    work: &mut [u32],
    c: Catalog,
    at: usize,
) -> Result<(), Fault>
    requires { Reading pack.now work.old c at × Whole pack.now body.now at × Sound pack.now work.old c }
    ensures { Takes pack.now work.old work.new c 8 (behind at body.now) (λ P. take_abstract P body.now) result }
{
    if c.count(work, Catalog::ABSTRACTS) != 0 {
        return Err(Fault::Bad);
    }
    if body.len() != 8 {
        return Err(Fault::Bad);
    }
    let constructor = u32_at(body, 0) as usize;
    if c.count(work, Catalog::SYMBOLS) <= constructor {
        return Err(Fault::Bad);
    }
    if symbol_output(pack, work, c, constructor) == Ground::PROP {
        return Err(Fault::Bad);
    }
    let position = u32_at(body, Field::ABSTRACT_POSITION) as usize;
    if symbol_arity(pack, work, c, constructor) <= position {
        return Err(Fault::Bad);
    }
    c.push(pack, work, Catalog::ABSTRACTS, at, at + Header::SIZE);
    Ok(())
}
