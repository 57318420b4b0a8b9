// A pattern of the store against a ground node by a worklist: each application of the store is matched once.
ghost use Rattle.std.specs.Prelude.{◌<◌, length};
ghost use Rattle.pack_tables.specs.Catalog.{records_of};
ghost use Rattle.store.specs.Stored.{nodes};
ghost use Rattle.term_instance.specs.Held.{Given};
ghost use Rattle.term_instance.specs.Pushes.{Pushable, Pushes};
ghost use Rattle.term_instance.specs.Binds.{Bindable, Binds};
ghost use Rattle.term_instance.specs.AtHand.{AppliedAt, BareAt, TakesAt, ReadyAt, TakesPairAt};
ghost use Rattle.term_instance.specs.Matches.{Matches};

use crate::tables::{Instance, Test, put_pair};
use base::id::{Ground, Pattern};
use base::stack::Frame;
use memo::memo::Memo;
use memo::part::{clear, get, put};
use pack_read::node::{node_argument, node_arity, node_head};
use pack_tables::catalog::Catalog;
use store::nodes::Store;

// The `k` arguments of pattern `p` and of ground node `n` side by side are put behind `top` other pairs, the first ones on top; behind
// them there are so many pairs.
fn push_arguments(
    pack: &[u8],
    work: &mut [u32],
    words: &[u32],
    c: Catalog,
    l: Instance,
    st: Store,
    top: usize,
    p: Pattern,
    n: Ground,
    k: usize,
) -> usize
    requires { Pushable pack.now work.old words.now c l st top p.0 n.0 k }
    ensures { Pushes pack.now work.old work.new words.now c l st top p.0 n.0 result }
{
    let mut on = top;
    for i in (0..k).rev() {
        let x = st.argument(&work[l.index..l.pairs], words, p, i);
        let m = node_argument(pack, work, c, n, i);
        put_pair(work, l, on, Pattern(x), m);
        on += 1;
    }
    on
}

// Variable `k` has the value `n` or gets it; or it has another.
fn bind(work: &mut [u32], l: Instance, values: Memo, k: u32, n: Ground) -> bool
    requires { Bindable work.old l values k }
    ensures { Binds work.old work.new l values k n.0 result }
{
    match get(work, l.values, l.end, values, k as usize) {
        Some(m) => m == n.0,
        None => {
            put(work, l.values, l.end, values, k as usize, n.0);
            true
        }
    }
}

// Application `p`, which was not seen, is matched with `n`: the heads are the same, and the arguments are put ahead of the rest; none if
// the heads differ.
fn descend(
    pack: &[u8],
    work: &mut [u32],
    words: &[u32],
    s: Test,
    top: usize,
    p: Pattern,
    n: Ground,
    head: u32,
) -> Option<usize>
    requires { BareAt pack.now work.old words.now s top p.0 n.0 head }
    ensures { TakesAt pack.now work.old work.new words.now s top p.0 n.0 result }
{
    if node_head(pack, work, s.catalog, n) != head {
        return None;
    }
    let l = s.tables;
    let k = s.store.arity(&work[l.index..l.pairs], words, p);
    if node_arity(pack, work, s.catalog, n) != k {
        return None;
    }
    put(work, l.seen, l.values, s.seen, p.0 as usize, n.0);
    Some(push_arguments(pack, work, words, s.catalog, l, s.store, top, p, n, k))
}

// Application `p` was seen with `n`, or is matched with it; none if they differ.
fn meet(
    pack: &[u8],
    work: &mut [u32],
    words: &[u32],
    s: Test,
    top: usize,
    p: Pattern,
    n: Ground,
    head: u32,
) -> Option<usize>
    requires { AppliedAt pack.now work.old words.now s top p.0 n.0 head }
    ensures { TakesAt pack.now work.old work.new words.now s top p.0 n.0 result }
{
    let l = s.tables;
    let Some(m) = get(work, l.seen, l.values, s.seen, p.0 as usize) else {
        return descend(pack, work, words, s, top, p, n, head);
    };
    if m != n.0 {
        return None;
    }
    Some(top)
}

// The pair behind `top` others is taken; none if its two differ.
fn take_pair(pack: &[u8], work: &mut [u32], words: &[u32], s: Test, top: usize) -> Option<usize>
    requires { ReadyAt pack.now work.old words.now s top }
    ensures { TakesPairAt pack.now work.old work.new words.now s top result }
{
    let l = s.tables;
    let at = l.pairs + Frame::WORDS * top;
    let p = Pattern(work[at]);
    let n = Ground(work[at + Frame::SECOND]);
    let head = s.store.head(&work[l.index..l.pairs], words, p);
    if head == Pattern::VAR {
        let k = s.store.argument(&work[l.index..l.pairs], words, p, 0);
        if bind(work, l, s.values, k, n) {
            return Some(top);
        }
        return None;
    }
    meet(pack, work, words, s, top, p, n, head)
}

// The memos with which ground node `n` is an instance of pattern `p`, the values of its variables among them; none if it is no instance.
pub fn instance(
    pack: &[u8],
    work: &mut [u32],
    words: &[u32],
    c: Catalog,
    l: Instance,
    st: Store,
    seen: Memo,
    values: Memo,
    p: Pattern,
    n: Ground,
) -> Option<(Memo, Memo)>
    requires { Given pack.now work.old words.now c l st seen values × (p.0 < length (nodes words.now st)) × (n.0 < length (records_of work.old c 3)) }
    ensures { Matches pack.now work.old work.new words.now c l st p.0 n.0 result }
{
    let fresh = clear(work, l.seen, l.values, seen);
    let bare = clear(work, l.values, l.end, values);
    put_pair(work, l, 0, p, n);
    let s = Test {
        catalog: c,
        tables: l,
        store: st,
        seen: fresh,
        values: bare,
    };
    let mut top: usize = 1;
    while 0 < top {
        top = take_pair(pack, work, words, s, top - 1)?;
    }
    Some((fresh, bare))
}
