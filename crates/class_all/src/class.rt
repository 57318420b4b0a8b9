// One class made: by its predicate if its first step is cut, else by that step's rule.
ghost use Rattle.std.specs.Prelude.{◌≡◌, ◌<◌, length};
ghost use Rattle.pack_tables.specs.Catalog.{records_of};
ghost use Rattle.pack_read.specs.Held.{Held, OfHeld};
ghost use Rattle.class_premises.specs.Buffers.{lent};
ghost use Rattle.class_all.specs.Class.{RulingOf, MakingIn, MakesIn};

use class_cut::cut::make_cut;
use class_keys::classes::class_first;
use class_keys::cut::{step_is_cut, step_predicate};
use class_premises::building::{Building, Counted};
use class_premises::premises::Ruling;
use class_rule::rule::make_rule;
use definition::Refusal;
use pack_read::rule::{rule_premises, rule_vars};
use pack_read::step::step_rule;
use pack_tables::catalog::Catalog;

// Step `s` with its rule, and how many variables and premises that has.
fn step_ruling(pack: &[u8], work: &[u32], c: Catalog, s: usize) -> Ruling
    requires { Held pack.now work.now c × (s < length (records_of work.now c 4)) }
    ensures { (result.step ≡ s) × OfHeld pack.now work.now c (λ P. RulingOf P result) }
{
    let r = step_rule(pack, work, c, s) as usize;
    let vars = rule_vars(pack, work, c, r);
    let premises = rule_premises(pack, work, c, r);
    Ruling {
        step: s,
        rule: r,
        vars,
        premises,
    }
}

// Class `i`. A refusal leaves open what all buffers but the pack hold then.
pub fn make_class(
    pack: &[u8],
    work: &mut [u32],
    class: &mut [u32],
    words: &mut [u32],
    cells: &mut [u32],
    s: Building,
    i: usize,
) -> Result<(Building, Counted), Refusal>
    requires { MakingIn (lent pack.now class.old words.old cells.old work.old) s i }
    ensures { MakesIn (lent pack.now class.old words.old cells.old work.old) (lent pack.now class.new words.new cells.new work.new) s i result }
{
    let first = class_first(work, s.keying, i);
    if step_is_cut(pack, work, s.catalog, first) {
        let p = step_predicate(pack, work, s.catalog, first);
        return make_cut(pack, work, class, words, s, i, p);
    }
    let u = step_ruling(pack, work, s.catalog, first);
    make_rule(pack, work, class, words, cells, s, u, i)
}
