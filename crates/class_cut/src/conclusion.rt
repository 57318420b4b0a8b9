// The conclusion of a cut class in the store: its predicate over a fresh variable for each argument.
ghost use Rattle.std.specs.Prelude.{[], ◌∷◌, ◌<◌, length};
ghost use Rattle.definition.specs.Store.{variable_head};
ghost use Rattle.pack_tables.specs.Catalog.{records_of};
ghost use Rattle.term_lift.specs.Lifts.{Lifts};
ghost use Rattle.term_lift.specs.Kept.{Indexed, Interns};
ghost use Rattle.class_cut.specs.Fresh.{Starts, Freshens};
ghost use Rattle.class_cut.specs.Conclusion.{Concludes};

use base::id::Pattern;
use base::limit::Limit;
use pack_read::symbol::{symbol_arity, symbol_input};
use pack_tables::catalog::Catalog;
use store::nodes::Store;
use term_lift::intern::intern_key;
use term_lift::lift::Lifted;

// Variable `k` of a sort: its number, and the store that has it; `None` where there is no room for it.
fn fresh_variable(
    work: &mut [u32],
    words: &mut [u32],
    l: Lifted,
    st: Store,
    k: usize,
    sort: u32,
) -> Option<(Pattern, Store)>
    requires { Indexed work.old words.old l st × (k < 4294967296) }
    ensures { Interns work.old words.old work.new words.new l st (variable_head ∷ k ∷ sort ∷ []) result }
{
    intern_key(work, words, l, st, &[Pattern::VAR, k as u32, sort])
}

// A variable for each of the `n` inputs of predicate `p`; their numbers stand behind it in the key. The store that has them, or `None`
// where there is no room for one.
fn fresh_variables(
    pack: &[u8],
    work: &mut [u32],
    words: &mut [u32],
    c: Catalog,
    l: Lifted,
    st: Store,
    p: u32,
    n: usize,
    key: &mut [u32],
) -> Option<Store>
    requires { Starts pack.now work.old words.old c l st p n key.old }
    ensures { Freshens pack.now work.old words.old work.new words.new c l st p n key.new result }
{
    let mut grown = st;
    for k in 0..n {
        let sort = symbol_input(pack, work, c, p as usize, k);
        let (q, more) = fresh_variable(work, words, l, grown, k, sort)?;
        key[k + 1] = q.0;
        grown = more;
    }
    Some(grown)
}

// The conclusion of predicate `p`'s cut class: its number, and the store that has it; `None` where there is no room for it.
pub fn cut_conclusion(
    pack: &[u8],
    work: &mut [u32],
    words: &mut [u32],
    c: Catalog,
    l: Lifted,
    st: Store,
    p: u32,
) -> Option<(Pattern, Store)>
    requires { Lifts pack.now work.old words.old c l st × (p < length (records_of work.old c 1)) }
    ensures { Concludes pack.now work.old words.old work.new words.new c l st p result }
{
    let n = symbol_arity(pack, work, c, p as usize);
    let mut key = [0; Limit::KEY];
    key[0] = p;
    let more = fresh_variables(pack, work, words, c, l, st, p, n, &mut key)?;
    intern_key(work, words, l, more, &key[0..n + 1])
}
