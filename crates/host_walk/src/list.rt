// A store of patterns by a list of words.
ghost use Rattle.std.specs.Prelude.{◌≡◌, [], ◌<◌, length};
ghost use Rattle.store.specs.Words.{node_with};
ghost use Rattle.store.specs.Stored.{nodes};
ghost use Rattle.term_lift.specs.Lifts.{Lifts};
ghost use Rattle.host_walk.specs.Listed.{is_pattern};
ghost use Rattle.host_walk.specs.Lists.{Reading, Turned, Lists};

use base::below::all_below;
use base::id::Pattern;
use base::limit::Limit;
use pack_tables::catalog::Catalog;
use store::nodes::Store;
use term_lift::intern::intern_key;
use term_lift::lift::Lifted;

// Why a list of patterns is not read: words of it are no pattern, or the pattern words have no room for one.
#[derive(Clone, Copy)]
pub enum Fault {
    Broken,
    Full,
}

// Whether a key's node is a pattern behind `n` others.
fn is_pattern(key: &[u32], n: usize) -> bool
    requires { 0 < length key.now }
    ensures { result ≡ is_pattern n (node_with key.now) }
{
    if key[0] == Pattern::VAR {
        return key.len() == 3;
    }
    if Limit::KEY < key.len() {
        return false;
    }
    let end = key.len();
    all_below(&key[1..end], n)
}

// The node at `at` is interned, if it is a pattern: the store then, and where the node ends.
fn take_node(
    pack: &[u8],
    from: &[u32],
    work: &mut [u32],
    words: &mut [u32],
    c: Catalog,
    l: Lifted,
    st: Store,
    at: usize,
) -> Result<(Store, usize), Fault>
    requires { Lifts pack.now work.old words.old c l st × Reading from.now words.old st at × (at < length from.now) }
    ensures { Turned pack.now from.now work.old work.new words.new c l at result }
{
    if from.len() - at < 2 {
        return Err(Fault::Broken);
    }
    let n = from[at] as usize;
    if from.len() - (at + 2) < n {
        return Err(Fault::Broken);
    }
    let end = at + 2 + n;
    if !is_pattern(&from[at + 1..end], st.len) {
        return Err(Fault::Broken);
    }
    let Some((_, more)) = intern_key(work, words, l, st, &from[at + 1..end]) else {
        return Err(Fault::Full);
    };
    Ok((more, end))
}

// A turn for each node of the list, from an empty store on.
pub fn read_list(
    pack: &[u8],
    from: &[u32],
    work: &mut [u32],
    words: &mut [u32],
    c: Catalog,
    l: Lifted,
    empty: Store,
) -> Result<Store, Fault>
    requires { Lifts pack.now work.old words.old c l empty × (nodes words.old empty ≡ []) }
    ensures { Lists pack.now from.now work.old work.new words.new c l result }
{
    let mut st = empty;
    let mut at = 0;
    while at < from.len() {
        let (more, end) = take_node(pack, from, work, words, c, l, st, at)?;
        st = more;
        at = end;
    }
    Ok(st)
}
