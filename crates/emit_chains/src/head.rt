// The predicate that a rule concludes.
ghost use Rattle.std.specs.Prelude.{◌≡◌, ◌<◌, length};
ghost use Rattle.definition.specs.Pack.{rule_of};
ghost use Rattle.pack_read.specs.Held.{Held, OfHeld};
ghost use Rattle.emit_chains.specs.Head.{top_of};

use pack_read::rule::{pass_terms, rule_premises, rule_vars, rule_word};
use pack_tables::catalog::Catalog;

// The head of the conclusion of rule `r`: its premises' words are passed over, as many terms as there are premises.
pub fn rule_head(pack: &[u8], work: &[u32], c: Catalog, r: usize) -> u32
    requires { (H : Held pack.now work.now c) × (r < length H.pack.rules) }
    ensures { OfHeld pack.now work.now c (λ P. result ≡ top_of (rule_of P r).conclusion) }
{
    let vars = rule_vars(pack, work, c, r);
    let premises = rule_premises(pack, work, c, r);
    let i = pass_terms(pack, work, c, r, vars, 0, premises);
    rule_word(pack, work, c, r, vars, i)
}
