// Chains in work: numbers with one key linked in ascending order.
ghost use Rattle.std.specs.Prelude.{◌≡◌, ◌+◌, ◌<◌, get_or, set, replicate};
ghost use Rattle.definition.specs.Store.{nothing};
ghost use Rattle.base.specs.Outside.{Outside};
ghost use Rattle.emit_chains.specs.Chain.{Put};
ghost use Rattle.emit_chains.specs.Places.{firsts, links, Within};

// Where chains stand in work. A word of theirs is 0 or a number and one: the first of a key's chain, and the one behind a number.
#[derive(Clone, Copy)]
pub struct Chains {
    // Where the chains' first words start.
    pub first: usize,
    // How many keys have one.
    pub keys: usize,
    // Where the links start.
    pub next: usize,
    // How many numbers have one.
    pub items: usize,
}

// Every key's chain becomes empty.
pub fn clear_chains(work: &mut [u32], chains: Chains)
    requires { Within work.old chains }
    ensures empty { firsts work.new chains ≡ replicate chains.keys 0 }
    ensures frame { Outside chains.first (chains.first + chains.keys) work.old work.new }
{
    let from = chains.first;
    let to = from + chains.keys;
    work[from..to].fill(0);
}

// Number `i` becomes the first of the chain of `key`. What stands between the first words and the links is left open.
pub fn put_first(work: &mut [u32], chains: Chains, key: usize, i: usize)
    requires { Within work.old chains × (key < chains.keys) × (i < chains.items) × (i < nothing) }
    ensures first { firsts work.new chains ≡ set (firsts work.old chains) key (i + 1) }
    ensures link { links work.new chains ≡ set (links work.old chains) i (get_or (firsts work.old chains) key 0) }
    ensures frame { Outside chains.first (chains.next + chains.items) work.old work.new }
{
    let at = chains.first + key;
    let link = chains.next + i;
    work[link] = work[at];
    work[at] = i as u32 + 1;
}

// The same for any key, with the same left open: one without a chain changes no chain.
pub fn put_keyed(work: &mut [u32], chains: Chains, key: usize, i: usize)
    requires { Within work.old chains × (i < chains.items) × (i < nothing) }
    ensures put { Put (firsts work.old chains) (links work.old chains) key i (firsts work.new chains) (links work.new chains) }
    ensures frame { Outside chains.first (chains.next + chains.items) work.old work.new }
{
    if chains.keys <= key {
        return;
    }
    put_first(work, chains, key, i);
}
