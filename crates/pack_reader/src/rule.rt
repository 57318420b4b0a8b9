// Rules.
ghost use Rattle.definition.specs.Theory.{take_rule};
ghost use Rattle.pack_tables.specs.Catalog.{records_of};
ghost use Rattle.pack_read.specs.Says.{Readable};
ghost use Rattle.pack_reader.specs.Taking.{Reading, Whole, behind, Takes};
ghost use Rattle.pack_reader.specs.Sound.{Sound};
ghost use Rattle.pack_reader.specs.Rule.{Counts, Forms};

use crate::taken::Fault;
use crate::terms::read_terms;
use base::limit::Limit;
use buffer::little::u16_at;
use pack_tables::catalog::Catalog;
use pack_tables::field::Field;
use pack_tables::header::Header;
use pack_tables::name::is_name;
use pack_tables::region::Entered;
use pack_tables::row::all_below;

// How many variables and premises a rule over so many sorts has.
fn rule_counts(body: &[u8], sorts: usize) -> Result<(usize, usize), Fault>
    ensures { Counts body.now sorts result }
{
    if body.len() < Field::RULE_SORTS {
        return Err(Fault::Bad);
    }
    let vars = u16_at(body, 0) as usize;
    if Limit::VARIABLES < vars {
        return Err(Fault::Over);
    }
    let premises = u16_at(body, Field::RULE_PREMISES) as usize;
    if Limit::PREMISES < premises {
        return Err(Fault::Over);
    }
    if body.len() < Field::RULE_SORTS + Field::WORD * vars {
        return Err(Fault::Bad);
    }
    if !all_below(body, Field::RULE_SORTS, vars, sorts) {
        return Err(Fault::Bad);
    }
    Ok((vars, premises))
}

// The form of a rule's body: where its name starts.
fn rule_form(pack: &[u8], body: &[u8], work: &[u32], c: Catalog) -> Result<usize, Fault>
    requires { Readable pack.now work.now c }
    ensures { Forms pack.now (records_of work.now c) body.now result }
{
    let sorts = c.count(work, Catalog::SORTS);
    let (vars, premises) = rule_counts(body, sorts)?;
    let e = read_terms(pack, work, c, body, vars, premises)?;
    if !is_name(&body[e..]) {
        return Err(Fault::Bad);
    }
    Ok(e)
}

// A rule: its variables' sorts, its premises and conclusion in prefix order, and a name.
pub fn take_rule(
    pack: &[u8],
    body: &[u8],
    work: &mut [u32],
    c: Catalog,
    at: usize,
) -> Result<(), Fault>
    requires { Reading pack.now work.old c at × Whole pack.now body.now at × Sound pack.now work.old c }
    ensures { Takes pack.now work.old work.new c 2 (behind at body.now) (λ P. take_rule P body.now) result }
{
    if Limit::RULES <= c.count(work, Catalog::RULES) {
        return Err(Fault::Over);
    }
    let n = rule_form(pack, body, work, c)?;
    match c.enter(pack, work, Catalog::RULES, at, at + Header::SIZE + n) {
        Entered::New => Ok(()),
        Entered::Old => Err(Fault::Bad),
    }
}
