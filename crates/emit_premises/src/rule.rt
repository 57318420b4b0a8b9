// A rule's premises for a judgment.
ghost use Rattle.std.specs.Prelude.{◌≡◌, length};
ghost use Rattle.definition.specs.Pack.{most_premises};
ghost use Rattle.emit_premises.specs.Premised.{PremisesAsked, Premised};

use crate::build::{Built, build_premises};
use crate::premises::Premises;
use definition::{Buffer, Refusal};
use emit_match::rule::match_rule;
use emit_state::places::Places;
use emit_state::standing::Standing;
use pack_read::rule::rule_premises;

// The rule matched, and then its premises built; refused where there is no room for a node.
fn match_and_build(
    pack: &[u8],
    work: &mut [u32],
    words: &mut [u32],
    l: Places,
    m: Standing,
    j: u32,
    r: u32,
    qs: &mut [u32],
) -> Result<Premises, Refusal>
    requires { PremisesAsked pack.now work.old words.old l m j r × (length qs.old ≡ most_premises) }
    ensures { Premised pack.now work.old work.new words.old words.new qs.new l m j r result }
{
    let at = l.matching(m.store);
    let rule = r as usize;
    if !match_rule(pack, work, words, at, rule, j) {
        return Ok(Premises::Lacks(m));
    }
    let n = rule_premises(pack, work, at.catalog, rule);
    let Some(built) = build_premises(pack, work, words, at, rule, n, qs) else {
        return Err(Refusal::Short(Buffer::PATTERN));
    };
    match built {
        Built::All(grown) => Ok(Premises::Built(m.with_store(grown), n)),
        Built::Lacks(grown) => Ok(Premises::Lacks(m.with_store(grown))),
    }
}

// The same, kept out of its callers' frames: a function that calls itself is not put into them. It never does: each pattern has room.
fn premises_apart(
    pack: &[u8],
    work: &mut [u32],
    words: &mut [u32],
    l: Places,
    m: Standing,
    j: u32,
    r: u32,
    qs: &mut [u32],
) -> Result<Premises, Refusal>
    requires { PremisesAsked pack.now work.old words.old l m j r × (length qs.old ≡ most_premises) }
    ensures { Premised pack.now work.old work.new words.old words.new qs.new l m j r result }
{
    if l.room <= j as usize {
        return premises_apart(pack, work, words, l, m, j, r, qs);
    }
    match_and_build(pack, work, words, l, m, j, r, qs)
}

// The premises of rule `r` as patterns in `qs`, where its conclusion matches judgment `j` and gives each of their variables; refused where
// there is no room for a node.
pub fn premises(
    pack: &[u8],
    work: &mut [u32],
    words: &mut [u32],
    l: Places,
    m: Standing,
    j: u32,
    r: u32,
    qs: &mut [u32],
) -> Result<Premises, Refusal>
    requires { PremisesAsked pack.now work.old words.old l m j r × (length qs.old ≡ most_premises) }
    ensures { Premised pack.now work.old work.new words.old words.new qs.new l m j r result }
{
    premises_apart(pack, work, words, l, m, j, r, qs)
}
