// Symbols.
ghost use Rattle.definition.specs.Theory.{take_symbol};
ghost use Rattle.pack_reader.specs.Taking.{Reading, Whole, behind, Takes};
ghost use Rattle.pack_reader.specs.Symbol.{OutputOf, Shapes};

use crate::taken::Fault;
use base::id::Ground;
use base::limit::Limit;
use buffer::little::{u16_at, u32_at};
use pack_tables::catalog::Catalog;
use pack_tables::field::Field;
use pack_tables::header::Header;
use pack_tables::name::is_name;
use pack_tables::region::Entered;
use pack_tables::row::all_below;

// Whether it is an output sort: the mark of a predicate, or one of so many sorts.
fn is_output(output: u32, sorts: usize) -> bool
    ensures { OutputOf sorts output result }
{
    if output == Ground::PROP {
        return true;
    }
    (output as usize) < sorts
}

// The form of a symbol's body over so many sorts: where its name starts.
fn symbol_shape(body: &[u8], sorts: usize) -> Result<usize, Fault>
    ensures { Shapes body.now sorts result }
{
    if body.len() < 6 {
        return Err(Fault::Bad);
    }
    let arity = u16_at(body, Field::SYMBOL_ARITY) as usize;
    if Limit::ARITY < arity {
        return Err(Fault::Over);
    }
    let name = Field::SYMBOL_INPUTS + Field::WORD * arity;
    if body.len() < name {
        return Err(Fault::Bad);
    }
    let output = u32_at(body, 0);
    if !is_output(output, sorts) {
        return Err(Fault::Bad);
    }
    if !all_below(body, 6, arity, sorts) {
        return Err(Fault::Bad);
    }
    if !is_name(&body[name..]) {
        return Err(Fault::Bad);
    }
    Ok(name)
}

// A symbol: its output sort, its inputs' sorts, and a name.
pub fn take_symbol(
    pack: &[u8],
    body: &[u8],
    work: &mut [u32],
    c: Catalog,
    at: usize,
) -> Result<(), Fault>
    requires { Reading pack.now work.old c at × Whole pack.now body.now at }
    ensures { Takes pack.now work.old work.new c 1 (behind at body.now) (λ P. take_symbol P body.now) result }
{
    if Limit::SYMBOLS <= c.count(work, Catalog::SYMBOLS) {
        return Err(Fault::Over);
    }
    let sorts = c.count(work, Catalog::SORTS);
    let n = symbol_shape(body, sorts)?;
    match c.enter(pack, work, Catalog::SYMBOLS, at, at + Header::SIZE + n) {
        Entered::New => Ok(()),
        Entered::Old => Err(Fault::Bad),
    }
}
