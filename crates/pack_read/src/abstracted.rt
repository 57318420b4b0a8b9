// The abstract record: what it says in the parsed pack.
ghost use Rattle.std.specs.Prelude.{◌<◌, length, get_or};
ghost use Rattle.definition.specs.Good.{no_abstract};
ghost use Rattle.pack_tables.specs.Catalog.{records_of};
ghost use Rattle.pack_read.specs.Says.{Readable, OfPack};

use crate::body::body_word;
use pack_tables::catalog::Catalog;
use pack_tables::field::Field;

// The constructor of abstract record `i`, a symbol.
pub fn abstract_constructor(pack: &[u8], work: &[u32], c: Catalog, i: usize) -> u32
    requires { Readable pack.now work.now c × (i < length (records_of work.now c 8)) }
    ensures { OfPack pack.now work.now c (λ P. (get_or P.abstracts i no_abstract).constructor) result }
{
    body_word(pack, work, c, Catalog::ABSTRACTS, i, 0)
}

// Its position among the constructor's inputs.
pub fn abstract_position(pack: &[u8], work: &[u32], c: Catalog, i: usize) -> u32
    requires { Readable pack.now work.now c × (i < length (records_of work.now c 8)) }
    ensures { OfPack pack.now work.now c (λ P. (get_or P.abstracts i no_abstract).position) result }
{
    body_word(
        pack,
        work,
        c,
        Catalog::ABSTRACTS,
        i,
        Field::ABSTRACT_POSITION,
    )
}
