// Steps.
ghost use Rattle.definition.specs.Certificate.{take_step};
ghost use Rattle.pack_reader.specs.Taking.{Reading, Whole, behind, Takes};
ghost use Rattle.pack_reader.specs.Sound.{Sound};

use crate::taken::Fault;
use base::id::Ground;
use buffer::little::u32_at;
use pack_read::body::body_half;
use pack_read::node::node_sort;
use pack_tables::catalog::Catalog;
use pack_tables::field::Field;
use pack_tables::header::Header;
use pack_tables::row::all_below;

// A step: its rule, its judgment, a node, and its refs, each an earlier step, as many as the rule's premises.
pub fn take_step(
    pack: &[u8],
    body: &[u8],
    work: &mut [u32],
    c: Catalog,
    at: usize,
) -> Result<(), Fault>
    requires { Reading pack.now work.old c at × Whole pack.now body.now at × Sound pack.now work.old c }
    ensures { Takes pack.now work.old work.new c 4 (behind at body.now) (λ P. take_step P body.now) result }
{
    if body.len() < 8 {
        return Err(Fault::Bad);
    }
    let rule = u32_at(body, 0) as usize;
    if c.count(work, Catalog::RULES) <= rule {
        return Err(Fault::Bad);
    }
    let judgment = Ground(u32_at(body, Field::STEP_JUDGMENT));
    if c.count(work, Catalog::NODES) <= judgment.0 as usize {
        return Err(Fault::Bad);
    }
    if node_sort(pack, work, c, judgment) != Ground::PROP {
        return Err(Fault::Bad);
    }
    let premises = body_half(pack, work, c, Catalog::RULES, rule, Field::RULE_PREMISES) as usize;
    if body.len() != Field::STEP_REFS + Field::WORD * premises {
        return Err(Fault::Bad);
    }
    let steps = c.count(work, Catalog::STEPS);
    if !all_below(body, 8, premises, steps) {
        return Err(Fault::Bad);
    }
    c.push(pack, work, Catalog::STEPS, at, at + Header::SIZE);
    Ok(())
}
