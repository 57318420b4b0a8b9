// The patterns that the search begins with: L's, and the judgment's.
ghost use Rattle.std.specs.Prelude.{◌≡◌, [], ◌<◌};
ghost use Rattle.store.specs.Stored.{nodes};
ghost use Rattle.term_lift.specs.Lifts.{Lifts};
ghost use Rattle.term_lift.specs.Kept.{Indexed, Interns};
ghost use Rattle.host_search.specs.Judged.{eigen_key, Judges};

use base::id::{Ground, Pattern};
use pack_tables::catalog::Catalog;
use store::nodes::Store;
use term_lift::intern::intern_key;
use term_lift::lift::{Lifted, lift};

// L's variable.
#[derive(Clone, Copy)]
pub struct Eigen(pub u32);

impl Eigen {
    pub const NUMBER: u32 = 1073741823;

    pub const SORT: u32 = 0;
}

// L's pattern, and the store that has it; none where there is no room.
fn intern_eigen(
    work: &mut [u32],
    words: &mut [u32],
    l: Lifted,
    st: Store,
) -> Option<(Pattern, Store)>
    requires { Indexed work.old words.old l st }
    ensures { Interns work.old words.old work.new words.new l st eigen_key result }
{
    let key = [Pattern::VAR, Eigen::NUMBER, Eigen::SORT];
    intern_key(work, words, l, st, &key)
}

// L's pattern, and behind it that of ground node `n`; none where there is no room.
pub fn intern_judgment(
    pack: &[u8],
    work: &mut [u32],
    words: &mut [u32],
    c: Catalog,
    l: Lifted,
    empty: Store,
    n: Ground,
) -> Option<(Pattern, Store)>
    requires { Lifts pack.now work.old words.old c l empty × (nodes words.old empty ≡ []) × (n.0 < l.nodes) }
    ensures { Judges pack.now work.old words.old work.new words.new c l n.0 result }
{
    let (_, st) = intern_eigen(work, words, l, empty)?;
    lift(pack, work, words, c, l, st, n)
}
