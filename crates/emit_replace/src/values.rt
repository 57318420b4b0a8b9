// Patterns' arguments, and the values that patterns have for the time of a walk.
ghost use Rattle.std.specs.Prelude.{◌≡◌, ◌<◌, length, get_or};
ghost use Rattle.memo.specs.Recall.{Remembers, known};
ghost use Rattle.memo.specs.Lent.{Puts};
ghost use Rattle.store.specs.Stored.{nodes};
ghost use Rattle.emit_state.specs.Places.{replaced_at, stamp_at, replaced_in, replacing, Laid};
ghost use Rattle.emit_replace.specs.Known.{value_of};
ghost use Rattle.emit_replace.specs.Reading.{args_in, values_in, Readable, Begun};

use base::id::Pattern;
use emit_state::places::Places;
use memo::memo::Memo;
use memo::part::{clear, get, put};
use store::nodes::Store;

// How many patterns stand below pattern `p`: its arguments, but none below a variable.
pub fn arguments(work: &[u32], words: &[u32], l: Places, st: Store, p: u32) -> usize
    requires { Readable work.now words.now l st × (p < length (nodes words.now st)) }
    ensures { result ≡ length (args_in words.now st p) }
{
    let from = l.index;
    let to = l.index_end();
    if st.head(&work[from..to], words, Pattern(p)) == Pattern::VAR {
        return 0;
    }
    st.arity(&work[from..to], words, Pattern(p))
}

// The `i`-th of them.
pub fn argument(work: &[u32], words: &[u32], l: Places, st: Store, p: u32, i: usize) -> u32
    requires { Readable work.now words.now l st × (p < length (nodes words.now st)) × (i < length (args_in words.now st p)) }
    ensures { result ≡ get_or (args_in words.now st p) i 0 }
{
    let from = l.index;
    let to = l.index_end();
    st.argument(&work[from..to], words, Pattern(p), i)
}

// What pattern `p` has for a value, if it has one.
pub fn look_up(work: &[u32], l: Places, memo: Memo, p: u32) -> Option<u32>
    requires { Laid work.now l × (p < l.room) }
    ensures { known result ≡ values_in work.now l memo p }
{
    let from = l.replaced();
    let to = l.stamp();
    get(work, from, to, memo, p as usize)
}

// The value of pattern `p`, or 0.
pub fn value_of(work: &[u32], l: Places, memo: Memo, p: u32) -> u32
    requires { Laid work.now l × (p < l.room) }
    ensures { result ≡ value_of (values_in work.now l memo) p }
{
    look_up(work, l, memo, p).unwrap_or(0)
}

// `v` is the value of pattern `p`.
pub fn remember(work: &mut [u32], l: Places, memo: Memo, p: u32, v: u32)
    requires { Laid work.old l × Remembers (replaced_in work.old l) memo × (p < l.room) }
    ensures { Puts work.old work.new (replaced_at l) (stamp_at l) memo p v }
{
    let from = l.replaced();
    let to = l.stamp();
    put(work, from, to, memo, p as usize, v);
}

// `v` is the value of pattern `x`, and no other pattern has one.
pub fn begin(work: &mut [u32], l: Places, x: u32, v: u32) -> Memo
    requires { Laid work.old l × Remembers (replaced_in work.old l) (replacing work.old l) × (x < l.room) }
    ensures { Begun work.old work.new l x v result }
{
    let from = l.replaced();
    let to = l.stamp();
    let old = Memo { stamp: work[to] };
    let memo = clear(work, from, to, old);
    work[to] = memo.stamp;
    put(work, from, to, memo, x as usize, v);
    memo
}
