// Symbols: what each says in the parsed pack.
ghost use Rattle.std.specs.Prelude.{◌<◌, length, get_or};
ghost use Rattle.definition.specs.Pack.{symbol_of};
ghost use Rattle.pack_tables.specs.Catalog.{records_of};
ghost use Rattle.pack_read.specs.Says.{Readable, OfPack};

use crate::body::{body_half, body_word};
use pack_tables::catalog::Catalog;
use pack_tables::field::Field;

// The output sort of symbol `h`.
pub fn symbol_output(pack: &[u8], work: &[u32], c: Catalog, h: usize) -> u32
    requires { Readable pack.now work.now c × (h < length (records_of work.now c 1)) }
    ensures { OfPack pack.now work.now c (λ P. (symbol_of P h).output) result }
{
    body_word(pack, work, c, Catalog::SYMBOLS, h, 0)
}

// How many inputs it has.
pub fn symbol_arity(pack: &[u8], work: &[u32], c: Catalog, h: usize) -> usize
    requires { Readable pack.now work.now c × (h < length (records_of work.now c 1)) }
    ensures { OfPack pack.now work.now c (λ P. length (symbol_of P h).inputs) result }
{
    body_half(pack, work, c, Catalog::SYMBOLS, h, Field::SYMBOL_ARITY) as usize
}

// The sort of its input `i`.
pub fn symbol_input(pack: &[u8], work: &[u32], c: Catalog, h: usize, i: usize) -> u32
    requires { (R : Readable pack.now work.now c) × (h < length (records_of work.now c 1)) × (i < length (symbol_of R.pack h).inputs) }
    ensures { OfPack pack.now work.now c (λ P. get_or (symbol_of P h).inputs i 0) result }
{
    body_word(
        pack,
        work,
        c,
        Catalog::SYMBOLS,
        h,
        Field::SYMBOL_INPUTS + Field::WORD * i,
    )
}
