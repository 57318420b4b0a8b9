// Steps: what each says in the parsed pack.
ghost use Rattle.std.specs.Prelude.{◌<◌, length, get_or};
ghost use Rattle.definition.specs.Pack.{step_of};
ghost use Rattle.pack_tables.specs.Catalog.{records_of};
ghost use Rattle.pack_read.specs.Says.{Readable, OfPack};

use crate::body::{body_len, body_word};
use base::id::Ground;
use pack_tables::catalog::Catalog;
use pack_tables::field::Field;

// The rule of step `s`.
pub fn step_rule(pack: &[u8], work: &[u32], c: Catalog, s: usize) -> u32
    requires { Readable pack.now work.now c × (s < length (records_of work.now c 4)) }
    ensures { OfPack pack.now work.now c (λ P. (step_of P s).rule) result }
{
    body_word(pack, work, c, Catalog::STEPS, s, 0)
}

// Its judgment, a node.
pub fn step_judgment(pack: &[u8], work: &[u32], c: Catalog, s: usize) -> Ground
    requires { Readable pack.now work.now c × (s < length (records_of work.now c 4)) }
    ensures { OfPack pack.now work.now c (λ P. (step_of P s).judgment) result.0 }
{
    Ground(body_word(pack, work, c, Catalog::STEPS, s, Field::STEP_JUDGMENT))
}

// How many refs it has.
pub fn step_refs(pack: &[u8], work: &[u32], c: Catalog, s: usize) -> usize
    requires { Readable pack.now work.now c × (s < length (records_of work.now c 4)) }
    ensures { OfPack pack.now work.now c (λ P. length (step_of P s).refs) result }
{
    (body_len(pack, work, c, Catalog::STEPS, s) - Field::STEP_REFS) / Field::WORD
}

// Its ref `i`, a step.
pub fn step_ref(pack: &[u8], work: &[u32], c: Catalog, s: usize, i: usize) -> u32
    requires { (R : Readable pack.now work.now c) × (s < length (records_of work.now c 4)) × (i < length (step_of R.pack s).refs) }
    ensures { OfPack pack.now work.now c (λ P. get_or (step_of P s).refs i 0) result }
{
    body_word(
        pack,
        work,
        c,
        Catalog::STEPS,
        s,
        Field::STEP_REFS + Field::WORD * i,
    )
}
