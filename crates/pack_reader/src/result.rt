// Results.
ghost use Rattle.definition.specs.Certificate.{take_result};
ghost use Rattle.pack_reader.specs.Taking.{Reading, Whole, behind, Takes};

use crate::taken::Fault;
use buffer::little::u32_at;
use pack_tables::catalog::Catalog;
use pack_tables::field::Field;
use pack_tables::header::Header;
use pack_tables::name::is_name;
use pack_tables::region::Entered;

// A result: a step that was given, and a name.
pub fn take_result(
    pack: &[u8],
    body: &[u8],
    work: &mut [u32],
    c: Catalog,
    at: usize,
) -> Result<(), Fault>
    requires { Reading pack.now work.old c at × Whole pack.now body.now at }
    ensures { Takes pack.now work.old work.new c 6 (behind at body.now) (λ P. take_result P body.now) result }
{
    if body.len() < Field::RESULT_NAME {
        return Err(Fault::Bad);
    }
    let step = u32_at(body, 0) as usize;
    if c.count(work, Catalog::STEPS) <= step {
        return Err(Fault::Bad);
    }
    if !is_name(&body[Field::RESULT_NAME..]) {
        return Err(Fault::Bad);
    }
    match c.enter(
        pack,
        work,
        Catalog::RESULTS,
        at,
        at + Header::SIZE + Field::RESULT_NAME,
    ) {
        Entered::New => Ok(()),
        Entered::Old => Err(Fault::Bad),
    }
}
