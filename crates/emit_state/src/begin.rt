// The state that a search begins with.
ghost use Rattle.std.specs.Prelude.{◌≡◌, ◌/◌, ◌≤◌, length};
ghost use Rattle.pack_read.specs.Held.{Held};
ghost use Rattle.store.specs.Stored.{Stored};
ghost use Rattle.emit_state.specs.Places.{index_in, Laid};
ghost use Rattle.emit_state.specs.Holding.{most_cells};
ghost use Rattle.emit_state.specs.Begin.{Unput, Emptied, ChainsMade, Begins};

use crate::places::Places;
use crate::standing::Standing;
use emit_chains::constructors::chain_constructors;
use emit_chains::rules::chain_rules;
use emit_maps::maps::begin as begin_maps;
use memo::memo::Memo;
use memo::part::begin as begin_memo;
use store::nodes::Store;

// Nothing was put for L, and the word behind has the stamp.
fn begin_replaced(work: &mut [u32], l: Places)
    requires { Laid work.old l }
    ensures { Unput work.old work.new l }
{
    let from = l.replaced();
    let at = l.stamp();
    let memo = begin_memo(work, from, at);
    work[at] = memo.stamp;
}

// All maps are empty, nothing failed, and nothing was put for L. The answer is the memo of failures.
fn begin_tables(work: &mut [u32], l: Places) -> Memo
    requires { Laid work.old l }
    ensures { Emptied work.old work.new l result }
{
    let from = l.failed();
    let to = l.replaced();
    begin_maps(work, l.maps());
    let failed = begin_memo(work, from, to);
    begin_replaced(work, l);
    failed
}

// The rules are chained by their predicates, and the constructors by their sorts.
fn begin_chains(pack: &[u8], work: &mut [u32], l: Places)
    requires { Held pack.now work.old l.hand.catalog × Laid work.old l }
    ensures { ChainsMade pack.now work.old work.new l }
{
    let catalog = l.hand.catalog;
    chain_rules(pack, work, catalog, l.rules());
    chain_constructors(pack, work, catalog, l.constructors());
}

// A state without lines: all maps are empty, nothing is remembered, the rules and constructors are chained.
pub fn begin(pack: &[u8], work: &mut [u32], words: &[u32], l: Places, st: Store) -> Standing
    requires { Held pack.now work.old l.hand.catalog × Laid work.old l × Stored (index_in work.old l) words.now st × (l.room ≡ length words.now / 2) × (length words.now ≤ most_cells) }
    ensures { Begins pack.now work.old work.new words.now l st result }
{
    let failed = begin_tables(work, l);
    begin_chains(pack, work, l);
    Standing {
        store: st,
        text: 0,
        steps: 0,
        definitions: 0,
        variables: 0,
        inductions: 0,
        trail: 0,
        failed,
        hyps: 0,
    }
}
