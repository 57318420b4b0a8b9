// Another pattern put for L.
ghost use Rattle.std.specs.Prelude.{◌+◌, ◌≤◌, ◌≡◌, length};
ghost use Rattle.definition.specs.Pack.{most_arity};
ghost use Rattle.emit_replace.specs.Reading.{args_in, At};
ghost use Rattle.emit_replace.specs.Making.{Keyed, Makes, Finishable, Finishes};
ghost use Rattle.emit_replace.specs.Putting.{Puttable, PutsOn, PutsAll, PutAll};
ghost use Rattle.emit_replace.specs.Answers.{Replaceable, Grown, Replaces};

use crate::values::{argument, arguments, begin, remember, value_of};
use crate::walk::descend;
use base::id::Pattern;
use base::limit::Limit;
use base::stack::Stack;
use definition::{Buffer, Refusal};
use emit_state::places::Places;
use emit_state::standing::Standing;
use memo::memo::Memo;
use store::nodes::Store;

// The store, the next pattern, and those that wait behind it; or the store and the last one's value.
#[derive(Clone, Copy)]
enum Turn {
    On(Store, u32, Stack),
    Done(Store, u32),
}

// The head of pattern `p`, then its arguments' values; how many words these are. What stands behind them is left open.
fn key_of(
    work: &[u32],
    words: &[u32],
    l: Places,
    st: Store,
    memo: Memo,
    p: u32,
    key: &mut [u32],
) -> usize
    requires { At work.now words.now l st p × (length (args_in words.now st p) ≤ most_arity) × (length key.old ≡ most_arity + 1) }
    ensures { Keyed work.now words.now l st memo p key.new result }
{
    let n = arguments(work, words, l, st, p);
    let from = l.index;
    let to = l.index_end();
    key[0] = st.head(&work[from..to], words, Pattern(p));
    for i in 0..n {
        let a = argument(work, words, l, st, p, i);
        key[i + 1] = value_of(work, l, memo, a);
    }
    n + 1
}

// Pattern `p` over its arguments' values, itself if it has none, and the store that has it; none where there is no room for a node.
fn make(
    work: &mut [u32],
    words: &mut [u32],
    l: Places,
    st: Store,
    memo: Memo,
    p: u32,
) -> Option<(Pattern, Store)>
    requires { At work.old words.old l st p × (length (args_in words.old st p) ≤ most_arity) }
    ensures { Makes work.old words.old work.new words.new l st memo p result }
{
    if arguments(work, words, l, st, p) == 0 {
        return Some((Pattern(p), st));
    }
    let mut key = [0; Limit::KEY];
    let k = key_of(work, words, l, st, memo, p, &mut key);
    let from = l.index;
    let to = l.index_end();
    st.intern(&mut work[from..to], words, &key[0..k])
}

// The same, and that is its value; none where there is no room for a node.
fn finish(
    work: &mut [u32],
    words: &mut [u32],
    l: Places,
    st: Store,
    memo: Memo,
    p: u32,
) -> Option<(Pattern, Store)>
    requires { Finishable work.old words.old l st memo p }
    ensures { Finishes work.old words.old work.new words.new l st memo p result }
{
    let (q, more) = make(work, words, l, st, memo, p)?;
    remember(work, l, memo, p, q.0);
    Some((q, more))
}

// One pattern more gets its value, one below `p`, or `p` itself; or there is no room for a node.
fn put_turn(
    work: &mut [u32],
    words: &mut [u32],
    l: Places,
    st: Store,
    memo: Memo,
    p: u32,
    stack: Stack,
) -> Option<Turn>
    requires { Puttable work.old words.old l st memo p stack }
    ensures { PutsOn work.old words.old work.new words.new l st memo p stack result }
{
    let top = descend(work, words, l, st, memo, p, stack);
    let (q, more) = finish(work, words, l, st, memo, top.pattern)?;
    match top.under.pop(work) {
        Some((next, rest)) => Some(Turn::On(more, next, rest)),
        None => Some(Turn::Done(more, q.0)),
    }
}

// The value of pattern `j`, by those of all below it, and the store that has it; none where there is no room for a node.
fn put_all(
    work: &mut [u32],
    words: &mut [u32],
    l: Places,
    st: Store,
    memo: Memo,
    j: u32,
) -> Option<(Pattern, Store)>
    requires { PutsAll work.old words.old l st memo j }
    ensures { PutAll work.old words.old work.new words.new l st memo j result }
{
    let mut p = j;
    let mut stack = Stack {
        at: l.walk(),
        len: 0,
    };
    let mut grown = st;
    loop {
        match put_turn(work, words, l, grown, memo, p, stack)? {
            Turn::On(more, next, rest) => {
                grown = more;
                p = next;
                stack = rest;
            }
            Turn::Done(more, v) => {
                break Some((Pattern(v), more));
            }
        }
    }
}

// Pattern `j` with pattern `y` in place of `x`, and the state that has it; refused where the pattern words are short.
pub fn put_for(
    work: &mut [u32],
    words: &mut [u32],
    l: Places,
    m: Standing,
    x: u32,
    y: u32,
    j: u32,
) -> Result<(Standing, u32), Refusal>
    requires { Replaceable work.old words.old l m x y j }
    ensures grown { Grown m result }
    ensures comes { Replaces work.old words.old work.new words.new l m x y j result }
{
    if j == x {
        return Ok((m, y));
    }
    let memo = begin(work, l, x, y);
    let Some((q, store)) = put_all(work, words, l, m.store, memo, j) else {
        return Err(Refusal::Short(Buffer::PATTERN));
    };
    Ok((m.with_store(store), q.0))
}
