// The rules that conclude each predicate, chained in the pack's order.
ghost use Rattle.std.specs.Prelude.{◌+◌, ◌≤◌, length};
ghost use Rattle.definition.specs.Pack.{rule_of};
ghost use Rattle.base.specs.Outside.{Outside};
ghost use Rattle.pack_read.specs.Held.{Held};
ghost use Rattle.emit_chains.specs.Places.{Laid, ChainedIn};
ghost use Rattle.emit_chains.specs.Head.{top_of};

use crate::chain::{Chains, clear_chains, put_keyed};
use crate::head::rule_head;
use pack_tables::catalog::Catalog;

// Every predicate's chain is the rules that have it on top of their conclusions, and the pack is still held. What stands between the
// first words and the links, and the links of numbers that no chain has, is left open.
pub fn chain_rules(pack: &[u8], work: &mut [u32], c: Catalog, chains: Chains)
    requires { (H : Held pack.now work.old c) × Laid work.old c chains × (length H.pack.symbols ≤ chains.keys) × (length H.pack.rules ≤ chains.items) }
    ensures chained { ChainedIn pack.now work.new c chains (λ P. length P.rules) (λ P r. top_of (rule_of P r).conclusion) }
    ensures frame { Outside chains.first (chains.next + chains.items) work.old work.new }
{
    clear_chains(work, chains);
    let many = c.count(work, Catalog::RULES);
    for r in (0..many).rev() {
        let head = rule_head(pack, work, c, r) as usize;
        put_keyed(work, chains, head, r);
    }
}
