// Cuts: what each says in the parsed pack.
ghost use Rattle.std.specs.Prelude.{◌<◌, length, get_or};
ghost use Rattle.definition.specs.Good.{no_cut};
ghost use Rattle.pack_tables.specs.Catalog.{records_of};
ghost use Rattle.pack_read.specs.Says.{Readable, OfPack};

use crate::body::{body_len, body_word};
use pack_tables::catalog::Catalog;
use pack_tables::field::Field;

// The predicate of cut `j`, a symbol.
pub fn cut_predicate(pack: &[u8], work: &[u32], c: Catalog, j: usize) -> u32
    requires { Readable pack.now work.now c × (j < length (records_of work.now c 7)) }
    ensures { OfPack pack.now work.now c (λ P. (get_or P.cuts j no_cut).predicate) result }
{
    body_word(pack, work, c, Catalog::CUTS, j, 0)
}

// How many output positions it has.
pub fn cut_outputs(pack: &[u8], work: &[u32], c: Catalog, j: usize) -> usize
    requires { Readable pack.now work.now c × (j < length (records_of work.now c 7)) }
    ensures { OfPack pack.now work.now c (λ P. length (get_or P.cuts j no_cut).outputs) result }
{
    (body_len(pack, work, c, Catalog::CUTS, j) - Field::CUT_OUTPUTS) / Field::WORD
}

// Its output position `i`.
pub fn cut_output(pack: &[u8], work: &[u32], c: Catalog, j: usize, i: usize) -> u32
    requires { (R : Readable pack.now work.now c) × (j < length (records_of work.now c 7)) × (i < length (get_or R.pack.cuts j no_cut).outputs) }
    ensures { OfPack pack.now work.now c (λ P. get_or (get_or P.cuts j no_cut).outputs i 0) result }
{
    body_word(
        pack,
        work,
        c,
        Catalog::CUTS,
        j,
        Field::CUT_OUTPUTS + Field::WORD * i,
    )
}
