// Sorts.
ghost use Rattle.definition.specs.Theory.{take_sort};
ghost use Rattle.pack_reader.specs.Taking.{Reading, Whole, behind, Takes};

use crate::taken::Fault;
use base::limit::Limit;
use pack_tables::catalog::Catalog;
use pack_tables::header::Header;
use pack_tables::name::is_name;
use pack_tables::region::Entered;

// A sort: its body is its name.
pub fn take_sort(
    pack: &[u8],
    body: &[u8],
    work: &mut [u32],
    c: Catalog,
    at: usize,
) -> Result<(), Fault>
    requires { Reading pack.now work.old c at × Whole pack.now body.now at }
    ensures { Takes pack.now work.old work.new c 0 (behind at body.now) (λ P. take_sort P body.now) result }
{
    if Limit::SORTS <= c.count(work, Catalog::SORTS) {
        return Err(Fault::Over);
    }
    if !is_name(body) {
        return Err(Fault::Bad);
    }
    match c.enter(pack, work, Catalog::SORTS, at, at + Header::SIZE) {
        Entered::New => Ok(()),
        Entered::Old => Err(Fault::Bad),
    }
}
