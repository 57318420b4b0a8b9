// A fresh copy of a pattern, a node for each distinct node of it, arguments first: a walk by a stack that copies each node once.
ghost use Rattle.std.specs.Prelude.{◌≡◌, suc, ◌+◌, ◌-◌, ◌*◌, ◌≤◌, ◌<◌, eqb, length, get_or};
ghost use Rattle.definition.specs.Test.{◌and◌};
ghost use Rattle.definition.specs.Classes.{is_some};
ghost use Rattle.store.specs.Stored.{nodes};
ghost use Rattle.memo.specs.Recall.{recall, Remembers};
ghost use Rattle.term_copy.specs.Places.{table_in, value_in};
ghost use Rattle.term_copy.specs.Held.{Ready, Given, Copies};
ghost use Rattle.term_copy.specs.Frames.{Deeper, is_left, deepened, Advances, Runs, Begins};

use crate::node::{Copying, copy_node, copy_of};
use base::id::{Node, Pattern};
use base::stack::Frame;
use graph::graph::Graph;
use memo::memo::Memo;
use store::nodes::Store;

// Whether the frame at `at` is new and its pattern was copied before.
fn passes(work: &[u32], l: Copying, memo: Memo, at: usize) -> bool
    requires { (l.copied ≤ l.walk) × (l.walk ≤ length work.now) × (at + 1 < length work.now) × (get_or work.now at 0 < length (recall (table_in work.now l) memo)) }
    ensures { result ≡ (eqb (get_or work.now (at + 1) 0) 0 and is_some (value_in work.now l memo (get_or work.now at 0))) }
{
    if work[at + Frame::TAKEN] != 0 {
        return false;
    }
    let p = work[at];
    memo.get(&work[l.copied..l.walk], p as usize).is_some()
}

// Whether an argument of the node with a key is left to the frame at `at`.
fn is_left(work: &[u32], at: usize, key: &[u32]) -> bool
    requires { (at + 1 < length work.now) × (0 < length key.now) }
    ensures { result ≡ is_left work.now at key.now }
{
    if key[0] == Pattern::VAR {
        return false;
    }
    (work[at + Frame::TAKEN] as usize) < key.len() - 1
}

// The frame at `at` takes one more argument of the node with a key, which gets a frame above it.
fn deepen(work: &mut [u32], at: usize, key: &[u32])
    requires { Deeper work.old at key.now }
    ensures { work.new ≡ deepened work.old at key.now }
{
    let taken = work[at + Frame::TAKEN];
    work[at + Frame::TAKEN] = taken + 1;
    work[at + Frame::WORDS] = key[taken as usize + 1];
    work[at + Frame::NEXT_TAKEN] = 0;
}

// One turn on the frame above `top` others: it is dropped if its pattern was copied; or its next argument gets a frame; or its pattern
// is copied. How many frames there are then, and the graph; none where the cells have no room.
fn advance(
    work: &mut [u32],
    words: &[u32],
    cells: &mut [u32],
    l: Copying,
    st: Store,
    memo: Memo,
    g: Graph,
    flex: &[u32],
    top: usize,
) -> Option<(usize, Graph)>
    requires { Ready work.old words.now cells.old flex.now l st memo g (suc top) }
    ensures { Advances work.old work.new words.now cells.old cells.new flex.now l st memo g top result }
{
    let at = l.walk + Frame::WORDS * top;
    if passes(work, l, memo, at) {
        return Some((top, g));
    }
    let p = Pattern(work[at]);
    let key = st.node(&work[l.index..l.copied], words, p);
    if is_left(work, at, key) {
        deepen(work, at, key);
        return Some((top + 2, g));
    }
    let (_, h) = copy_node(work, cells, l, memo, g, flex, p, key)?;
    Some((top, h))
}

// The turns from one frame on until none is left; none where the cells have no room.
fn run(
    work: &mut [u32],
    words: &[u32],
    cells: &mut [u32],
    l: Copying,
    st: Store,
    memo: Memo,
    start: Graph,
    flex: &[u32],
) -> Option<(usize, Graph)>
    requires { Ready work.old words.now cells.old flex.now l st memo start 1 }
    ensures { Runs work.old work.new words.now cells.old cells.new flex.now l st memo start 1 result }
{
    let mut g = start;
    let mut top: usize = 1;
    while 0 < top {
        (top, g) = advance(work, words, cells, l, st, memo, g, flex, top - 1)?;
    }
    Some((0, g))
}

// A memo without entries, no variable noted, and a frame for pattern `p`.
fn begin(work: &mut [u32], l: Copying, memo: Memo, flex: &[u32], p: Pattern) -> Memo
    requires { Remembers (table_in work.old l) memo × (l.copied ≤ l.walk) × (l.walk + 2 ≤ l.variables) × (l.variables + length flex.now ≤ length work.old) }
    ensures { Begins work.old work.new flex.now l p.0 result }
{
    let fresh = memo.clear(&mut work[l.copied..l.walk]);
    work[l.variables..l.variables + flex.len()].fill(0);
    work[l.walk] = p.0;
    work[l.walk + Frame::TAKEN] = 0;
    fresh
}

// A fresh copy of pattern `p`, with variables of its own: its node, and the graph and the memo then; none where the cells have no room.
pub fn copy(
    work: &mut [u32],
    words: &[u32],
    cells: &mut [u32],
    l: Copying,
    st: Store,
    memo: Memo,
    g: Graph,
    flex: &[u32],
    p: Pattern,
) -> Option<(Node, Graph, Memo)>
    requires { Given work.old words.now cells.old flex.now l st memo g × (p.0 < length (nodes words.now st)) }
    ensures { Copies work.old work.new words.now cells.old cells.new flex.now l st g p.0 result }
{
    let fresh = begin(work, l, memo, flex, p);
    let (_, h) = run(work, words, cells, l, st, fresh, g, flex)?;
    Some((copy_of(work, l, fresh, p), h, fresh))
}
