// The key of a step, word by word: 0 and the predicate if it is cut, else 1, the rule, and the classes of its refs.
ghost use Rattle.std.specs.Prelude.{◌≡◌, length, ◌+◌};
ghost use Rattle.class_keys.specs.Writing.{Asked, Written, WrittenRule};
ghost use Rattle.definition.specs.Pack.{most_premises};

use crate::classes::Keying;
use crate::cut::{step_is_cut, step_predicate};
use crate::firsts::first_of;
use pack_read::step::{step_ref, step_refs, step_rule};
use pack_tables::catalog::Catalog;

// The key of step `s`, which is not cut; how many words these are. What stands behind them is left open.
fn write_rule_key(
    pack: &[u8],
    work: &[u32],
    class: &[u32],
    c: Catalog,
    at: usize,
    s: usize,
    key: &mut [u32],
) -> usize
    requires { Asked pack.now work.now class.now c at s × (length key.old ≡ most_premises + 2) }
    ensures { WrittenRule pack.now work.now class.now c s key.new result }
{
    let n = step_refs(pack, work, c, s);
    key[0] = 1;
    key[1] = step_rule(pack, work, c, s);
    for i in 0..n {
        let r = step_ref(pack, work, c, s, i) as usize;
        let f = first_of(pack, work, c, at, r);
        key[i + Keying::REFS] = class[f];
    }
    n + Keying::REFS
}

// The key of step `s`; how many words these are. What stands behind them is left open.
pub fn write_key(
    pack: &[u8],
    work: &[u32],
    class: &[u32],
    c: Catalog,
    at: usize,
    s: usize,
    key: &mut [u32],
) -> usize
    requires { Asked pack.now work.now class.now c at s × (length key.old ≡ most_premises + 2) }
    ensures { Written pack.now work.now class.now c s key.new result }
{
    if step_is_cut(pack, work, c, s) {
        key[0] = 0;
        key[1] = step_predicate(pack, work, c, s);
        return Keying::REFS;
    }
    write_rule_key(pack, work, class, c, at, s, key)
}
