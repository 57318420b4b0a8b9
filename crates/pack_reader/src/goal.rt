// Goals.
ghost use Rattle.definition.specs.Certificate.{take_goal};
ghost use Rattle.pack_reader.specs.Taking.{Reading, Whole, behind, Takes};
ghost use Rattle.pack_reader.specs.Sound.{Sound};

use crate::taken::Fault;
use base::id::Ground;
use buffer::little::u32_at;
use pack_read::node::node_sort;
use pack_tables::catalog::Catalog;
use pack_tables::field::Field;
use pack_tables::header::Header;
use pack_tables::name::is_name;
use pack_tables::region::Entered;

// A goal: a node with a predicate on top, and a name.
pub fn take_goal(
    pack: &[u8],
    body: &[u8],
    work: &mut [u32],
    c: Catalog,
    at: usize,
) -> Result<(), Fault>
    requires { Reading pack.now work.old c at × Whole pack.now body.now at × Sound pack.now work.old c }
    ensures { Takes pack.now work.old work.new c 5 (behind at body.now) (λ P. take_goal P body.now) result }
{
    if body.len() < Field::GOAL_NAME {
        return Err(Fault::Bad);
    }
    let node = Ground(u32_at(body, 0));
    if c.count(work, Catalog::NODES) <= node.0 as usize {
        return Err(Fault::Bad);
    }
    if node_sort(pack, work, c, node) != Ground::PROP {
        return Err(Fault::Bad);
    }
    if !is_name(&body[Field::GOAL_NAME..]) {
        return Err(Fault::Bad);
    }
    match c.enter(
        pack,
        work,
        Catalog::GOALS,
        at,
        at + Header::SIZE + Field::GOAL_NAME,
    ) {
        Entered::New => Ok(()),
        Entered::Old => Err(Fault::Bad),
    }
}
