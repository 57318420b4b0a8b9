// Ground nodes lifted to patterns, arguments first: a walk by a stack that lifts each node once.
ghost use Rattle.std.specs.Prelude.{◌≡◌, suc, ◌+◌, ◌<◌, ◌≤◌, eqb, ltb, length, get_or, set};
ghost use Rattle.definition.specs.Test.{◌and◌};
ghost use Rattle.term_lift.specs.Lifts.{Clears, Lifts, Laid, Ripe, Keyed, Finishes, Running, Advances, Answers};
ghost use Rattle.definition.specs.Store.{nothing};
ghost use Rattle.definition.specs.Pack.{most_arity};

use base::id::{Ground, Pattern};
use base::limit::Limit;
use base::stack::Frame;
use pack_read::node::{node_argument, node_arity, node_head};
use pack_tables::catalog::Catalog;
use store::nodes::Store;

// Where lifting has its tables in work: a word for each ground node, its pattern and one or 0; behind them the walk's stack, two words
// for each; then the store's index, up to `end`.
#[derive(Clone, Copy)]
pub struct Lifted {
    pub at: usize,
    pub nodes: usize,
    pub end: usize,
}

impl Lifted {
    // So many words are lifting's for each ground node: its pattern, and two of the stack.
    pub const NODE: usize = 3;

    // Nothing is lifted.
    pub fn clear(self, work: &mut [u32])
        requires { self.at + self.nodes ≤ length work.old }
        ensures { Clears work.old work.new self }
    {
        work[self.at..self.at + self.nodes].fill(0);
    }
}

// Whether a frame is dropped: it is new, and its node is lifted.
fn passes(work: &[u32], l: Lifted, n: usize, taken: usize) -> bool
    requires { l.at + n < length work.now }
    ensures { result ≡ (eqb taken 0 and ltb 0 (get_or work.now (l.at + n) 0)) }
{
    if taken != 0 {
        return false;
    }
    0 < work[l.at + n]
}

// One argument more is taken by the frame at `at`, and `a` gets a frame above it.
fn enter(work: &mut [u32], at: usize, taken: u32, a: u32)
    requires { (at + 3 < length work.old) × (taken < nothing) }
    ensures { work.new ≡ set (set (set work.old (at + 1) (taken + 1)) (at + 2) a) (at + 3) 0 }
{
    work[at + Frame::TAKEN] = taken + 1;
    work[at + Frame::WORDS] = a;
    work[at + Frame::NEXT_TAKEN] = 0;
}

// The head of node `n`, then what its arguments were lifted to; how many words these are. What stands behind them is left open.
fn key_of(pack: &[u8], work: &[u32], c: Catalog, l: Lifted, n: Ground, key: &mut [u32]) -> usize
    requires { Ripe pack.now work.now c l n.0 × (length key.old ≡ most_arity + 1) }
    ensures { Keyed pack.now work.now c l n.0 key.new result }
{
    let at = l.at;
    let k = node_arity(pack, work, c, n);
    key[0] = node_head(pack, work, c, n);
    for i in 0..k {
        let a = node_argument(pack, work, c, n, i).0 as usize;
        key[i + 1] = work[at + a] - 1;
    }
    k + 1
}

// Node `n`, whose arguments are lifted, is lifted; none where the pattern words have no room.
fn finish(
    pack: &[u8],
    work: &mut [u32],
    words: &mut [u32],
    c: Catalog,
    l: Lifted,
    st: Store,
    n: Ground,
) -> Option<(Pattern, Store)>
    requires { Laid pack.now work.old words.old c l st × Ripe pack.now work.old c l n.0 }
    ensures { Finishes pack.now work.old words.old work.new words.new c l st n.0 result }
{
    let mut key = [0; Limit::KEY];
    let k = key_of(pack, work, c, l, n, &mut key);
    let from = l.at + Lifted::NODE * l.nodes;
    let (p, more) = st.intern(&mut work[from..l.end], words, &key[0..k])?;
    work[l.at + n.0 as usize] = p.0 + 1;
    Some((p, more))
}

// One turn on the frame above `top` others: it is dropped if its node is lifted; else the next argument gets a frame above it; else
// its node is lifted and it is dropped. How many frames there are then, and the store; none where the pattern words have no room.
fn advance(
    pack: &[u8],
    work: &mut [u32],
    words: &mut [u32],
    c: Catalog,
    l: Lifted,
    st: Store,
    top: usize,
) -> Option<(usize, Store)>
    requires { Running pack.now work.old words.old c l st (suc top) }
    ensures { Advances pack.now work.old words.old work.new words.new c l st top result }
{
    let at = l.at + l.nodes + Frame::WORDS * top;
    let n = Ground(work[at]);
    let taken = work[at + Frame::TAKEN];
    if passes(work, l, n.0 as usize, taken as usize) {
        return Some((top, st));
    }
    if (taken as usize) < node_arity(pack, work, c, n) {
        let a = node_argument(pack, work, c, n, taken as usize);
        enter(work, at, taken, a.0);
        return Some((top + 2, st));
    }
    let (_, more) = finish(pack, work, words, c, l, st, n)?;
    Some((top, more))
}

// The pattern of ground node `n`, and the store that has it; or that there is no room for it.
pub fn lift(
    pack: &[u8],
    work: &mut [u32],
    words: &mut [u32],
    c: Catalog,
    l: Lifted,
    st: Store,
    n: Ground,
) -> Option<(Pattern, Store)>
    requires { Lifts pack.now work.old words.old c l st × (n.0 < l.nodes) }
    ensures { Answers pack.now work.old words.old work.new words.new c l st n.0 result }
{
    let base = l.at + l.nodes;
    work[base] = n.0;
    work[base + Frame::TAKEN] = 0;
    let mut top: usize = 1;
    let mut grown = st;
    while 0 < top {
        (top, grown) = advance(pack, work, words, c, l, grown, top - 1)?;
    }
    Some((Pattern(work[l.at + n.0 as usize] - 1), grown))
}
