// Graph terms read back as patterns, arguments first: a walk by a stack that reads each root once.
ghost use Rattle.std.specs.Prelude.{◌≡◌, ◌+◌, ◌<◌, ◌≤◌, eqb, ltb, length, get_or};
ghost use Rattle.definition.specs.Test.{◌and◌};
ghost use Rattle.term_readback.specs.Words.{patterns_at, table_end, table_in};
ghost use Rattle.term_readback.specs.Asked.{Asking};
ghost use Rattle.term_readback.specs.Stacks.{Entering, Enters, Begins, Clears};
ghost use Rattle.term_readback.specs.AtHand.{ReadyAt, TurningAt, AdvancesAt, AnswersAt};

use crate::root::read_root;
use crate::table::{Reading, Table, argument_root, count, put_word, word_at};
use base::id::{Node, Pattern};
use base::stack::Frame;
use graph::graph::Graph;
use graph::places::{pairs_at, patterns_at};
use store::nodes::Store;

// Nothing was read back.
pub fn clear(work: &mut [u32], cells: &[u32], t: Table, g: Graph)
    requires { (t.at + table_end cells.now ≤ t.end) × (t.end ≤ length work.old) × (g.nodes ≤ length cells.now) }
    ensures { Clears work.old work.new cells.now t g }
{
    let from = t.at + patterns_at(cells);
    work[from..from + g.nodes].fill(0);
}

// Whether a frame is dropped: it is new, and its root was read back.
fn passes(work: &[u32], cells: &[u32], t: Table, x: Node, taken: u32) -> bool
    requires { (t.at + (patterns_at cells.now + x.0) < t.end) × (t.end ≤ length work.now) }
    ensures { result ≡ (eqb taken 0 and ltb 0 (get_or (table_in t work.now) (patterns_at cells.now + x.0) 0)) }
{
    if taken != 0 {
        return false;
    }
    0 < word_at(work, t, patterns_at(cells) + x.0 as usize)
}

// One argument more of `x` is taken by the frame above `top` others, and its root gets a frame above it.
fn enter(work: &mut [u32], cells: &[u32], t: Table, g: Graph, top: usize, x: Node, taken: u32)
    requires { Entering cells.now work.old t g top x.0 taken }
    ensures { Enters cells.now work.old work.new t g top x.0 taken }
{
    let r = argument_root(work, cells, t, g, x, taken as usize);
    let at = pairs_at(cells) + Frame::WORDS * top;
    put_word(work, t, at + Frame::TAKEN, taken + 1);
    put_word(work, t, at + Frame::WORDS, r.0);
    put_word(work, t, at + Frame::NEXT_TAKEN, 0);
}

// The root of node `x`, which gets the first frame.
fn begin(work: &mut [u32], cells: &[u32], t: Table, g: Graph, x: Node) -> Node
    requires { Asking cells.now work.old t g x.0 }
    ensures { Begins cells.now work.old work.new t g x.0 result.0 }
{
    let r = g.find(cells, &mut work[t.at..t.end], x);
    let at = pairs_at(cells);
    put_word(work, t, at, r.0);
    put_word(work, t, at + Frame::TAKEN, 0);
    r
}

// One turn on the frame above `top` others: it is dropped if its root was read back; else the next argument's root gets a frame above
// it; else its root is read back and it is dropped. How many frames there are then, the store, and how many variables are numbered; none
// where the words have no room.
fn advance(
    pack: &[u8],
    work: &mut [u32],
    words: &mut [u32],
    cells: &[u32],
    s: Reading,
    st: Store,
    numbered: usize,
    top: usize,
) -> Option<(usize, Store, usize)>
    requires { TurningAt pack.now work.old words.old cells.now s st numbered top }
    ensures { AdvancesAt pack.now work.old words.old work.new words.new cells.now s st numbered top result }
{
    let at = pairs_at(cells) + Frame::WORDS * top;
    let x = Node(word_at(work, s.table, at));
    let taken = word_at(work, s.table, at + Frame::TAKEN);
    if passes(work, cells, s.table, x, taken) {
        return Some((top, st, numbered));
    }
    if (taken as usize) < count(work, cells, s.table, s.graph, x) {
        enter(work, cells, s.table, s.graph, top, x, taken);
        return Some((top + 2, st, numbered));
    }
    let (_, more, n) = read_root(pack, work, words, cells, s, st, numbered, x)?;
    Some((top, more, n))
}

// The pattern of node `x`, the store that has it, and how many variables are numbered then; or that there is no room for it.
pub fn resolve(
    pack: &[u8],
    work: &mut [u32],
    words: &mut [u32],
    cells: &[u32],
    s: Reading,
    st: Store,
    numbered: usize,
    x: Node,
) -> Option<(Pattern, Store, usize)>
    requires { ReadyAt pack.now work.old words.old cells.now s st numbered × (x.0 < s.graph.nodes) }
    ensures { AnswersAt pack.now work.old words.old work.new words.new cells.now s st numbered x.0 result }
{
    let r = begin(work, cells, s.table, s.graph, x);
    let mut top: usize = 1;
    let mut grown = st;
    let mut n = numbered;
    while 0 < top {
        (top, grown, n) = advance(pack, work, words, cells, s, grown, n, top - 1)?;
    }
    let word = word_at(work, s.table, patterns_at(cells) + r.0 as usize);
    Some((Pattern(word - 1), grown, n))
}
