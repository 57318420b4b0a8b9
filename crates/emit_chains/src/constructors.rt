// The constructors of each sort, chained in the pack's order.
ghost use Rattle.std.specs.Prelude.{◌+◌, ◌≤◌, length};
ghost use Rattle.definition.specs.Pack.{symbol_of};
ghost use Rattle.base.specs.Outside.{Outside};
ghost use Rattle.pack_read.specs.Held.{Held};
ghost use Rattle.emit_chains.specs.Places.{Laid, ChainedIn};

use crate::chain::{Chains, clear_chains, put_keyed};
use pack_read::symbol::symbol_output;
use pack_tables::catalog::Catalog;

// Every sort's chain is the symbols that have it as output, and the pack is still held. What stands between the first words and the
// links, and the links of numbers that no chain has, is left open.
pub fn chain_constructors(pack: &[u8], work: &mut [u32], c: Catalog, chains: Chains)
    requires { (H : Held pack.now work.old c) × Laid work.old c chains × (length H.pack.sorts ≤ chains.keys) × (length H.pack.symbols ≤ chains.items) }
    ensures chained { ChainedIn pack.now work.new c chains (λ P. length P.symbols) (λ P h. (symbol_of P h).output) }
    ensures frame { Outside chains.first (chains.next + chains.items) work.old work.new }
{
    clear_chains(work, chains);
    let many = c.count(work, Catalog::SYMBOLS);
    for h in (0..many).rev() {
        let output = symbol_output(pack, work, c, h) as usize;
        put_keyed(work, chains, output, h);
    }
}
