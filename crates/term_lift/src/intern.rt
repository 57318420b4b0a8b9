// A key interned beside what was lifted.
ghost use Rattle.std.specs.Prelude.{◌<◌, length};
ghost use Rattle.term_lift.specs.Kept.{Indexed, Interns};

use crate::lift::Lifted;
use base::id::Pattern;
use store::nodes::Store;

// The node of `key` in the store: its number, and the store that has it; or that there is no room for it.
pub fn intern_key(
    work: &mut [u32],
    words: &mut [u32],
    l: Lifted,
    st: Store,
    key: &[u32],
) -> Option<(Pattern, Store)>
    requires { Indexed work.old words.old l st × (0 < length key.now) }
    ensures { Interns work.old words.old work.new words.new l st key.now result }
{
    let from = l.at + Lifted::NODE * l.nodes;
    st.intern(&mut work[from..l.end], words, key)
}
