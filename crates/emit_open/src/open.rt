// The variables that stand as one argument of a constructor somewhere in a pattern: a worklist that meets each node of it once.
ghost use Rattle.std.specs.Prelude.{◌<◌, length};
ghost use Rattle.store.specs.Stored.{nodes};
ghost use Rattle.emit_open.specs.Held.{Given, Bounded, met_in};
ghost use Rattle.emit_open.specs.Meets.{Meetable, Meets, Taking, MeetsAll};
ghost use Rattle.emit_open.specs.Notes.{Notable, Notes};
ghost use Rattle.emit_open.specs.Takes.{Ready, Takes};
ghost use Rattle.emit_open.specs.Opens.{Opens};

use base::id::Pattern;
use base::stack::Stack;
use memo::memo::Memo;
use memo::part::{clear, get, put};
use store::nodes::Store;

// Where the walk has its tables in work: the store's index, the nodes that were met and are still to be taken (a word each), the nodes
// met (a memo of two words each, up to `past`), and a mark for each variable.
#[derive(Clone, Copy)]
pub struct Opening {
    pub index: usize,
    pub stack: usize,
    pub met: usize,
    pub past: usize,
    pub marks: usize,
    pub end: usize,
}

// Node `x` is met: unless it was before, it is put on the stack.
fn meet(work: &mut [u32], l: Opening, met: Memo, todo: Stack, x: u32) -> Stack
    requires { Meetable work.old l met todo x }
    ensures { Meets (met_in work.old l met x) work.old work.new l met todo x result }
{
    match get(work, l.met, l.past, met, x as usize) {
        Some(_) => todo,
        None => {
            put(work, l.met, l.past, met, x as usize, 0);
            todo.push(work, x)
        }
    }
}

// The `k` arguments of application `q` are met.
fn meet_arguments(
    work: &mut [u32],
    words: &[u32],
    l: Opening,
    st: Store,
    met: Memo,
    todo: Stack,
    q: Pattern,
    k: usize,
) -> Stack
    requires { Taking work.old words.now l st met todo q.0 k }
    ensures { MeetsAll work.old work.new words.now l st met todo q.0 result }
{
    let mut on = todo;
    for j in 0..k {
        let x = st.argument(&work[l.index..l.stack], words, q, j);
        on = meet(work, l, met, on, x);
    }
    on
}

// If application `q` has the head `c` and a variable as argument `i`, the variable is marked.
fn note(work: &mut [u32], words: &[u32], l: Opening, st: Store, q: Pattern, c: u32, i: usize)
    requires { Notable work.old words.now l st q.0 c i }
    ensures { Notes work.old work.new words.now l st q.0 c i }
{
    if st.head(&work[l.index..l.stack], words, q) != c {
        return;
    }
    if st.arity(&work[l.index..l.stack], words, q) <= i {
        return;
    }
    let x = Pattern(st.argument(&work[l.index..l.stack], words, q, i));
    if st.head(&work[l.index..l.stack], words, x) != Pattern::VAR {
        return;
    }
    let v = st.argument(&work[l.index..l.stack], words, x, 0);
    work[l.marks + v as usize] = 1;
}

// Node `q`, which was met, is taken: what it has is marked, and what is below it is met.
fn take(
    work: &mut [u32],
    words: &[u32],
    l: Opening,
    st: Store,
    met: Memo,
    todo: Stack,
    q: Pattern,
    c: u32,
    i: usize,
) -> Stack
    requires { Ready work.old words.now l st met todo q.0 c i }
    ensures { Takes work.old work.new words.now l st met todo q.0 c i result }
{
    if st.head(&work[l.index..l.stack], words, q) == Pattern::VAR {
        return todo;
    }
    note(work, words, l, st, q, c, i);
    let k = st.arity(&work[l.index..l.stack], words, q);
    meet_arguments(work, words, l, st, met, todo, q, k)
}

// Each variable that stands as argument `i` of constructor `c` somewhere in pattern `p` is marked 1, the others 0.
pub fn at(
    work: &mut [u32],
    words: &[u32],
    l: Opening,
    st: Store,
    met: Memo,
    p: Pattern,
    c: u32,
    i: usize,
) -> Memo
    requires { Given work.old words.now l st met × (p.0 < length (nodes words.now st)) × Bounded words.now l st p.0 c i }
    ensures { Opens work.old work.new words.now l st p.0 c i result }
{
    work[l.marks..l.end].fill(0);
    let fresh = clear(work, l.met, l.past, met);
    let none = Stack {
        at: l.stack,
        len: 0,
    };
    let mut todo = meet(work, l, fresh, none, p.0);
    while let Some((q, rest)) = todo.pop(work) {
        todo = take(work, words, l, st, fresh, rest, Pattern(q), c, i);
    }
    fresh
}
