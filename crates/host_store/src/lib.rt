// Interns a list of nodes, for the host's test and benchmark of the store.
#![tactic(auto)]

ghost use Rattle.std.specs.Prelude.{◌≡◌, ◌+◌, ◌≤◌, ◌<◌, length, take};
ghost use Rattle.definition.specs.Store.{pattern_words};
ghost use Rattle.store.specs.Stored.{Stored, Enough, nodes};
ghost use Rattle.host_store.specs.Tried.{Left, leaves, refused, unfit, tried};
ghost use Rattle.host_store.specs.Turns.{end_of, Halfway, Turned, Ran};

use base::id::Pattern;
use buffer::zero::fill_from;
use store::nodes::Store;

// The answer: 0 done, 2 lengths that do not fit, 8 short; and how many nodes the store has, 0 unless done.
#[repr(C)]
#[derive(Clone, Copy)]
pub struct Tried {
    pub code: u64,
    pub nodes: u64,
}

// After a turn: the store with a node more and where that node ends, or no node was left, or there is no room for it.
#[derive(Clone, Copy)]
enum Turn {
    Next(Store, usize),
    End,
    Full,
}

// Whether the lengths do not fit each other.
fn lengths_unfit(index: usize, words: usize) -> bool
    ensures { result ≡ unfit index words }
{
    if Pattern::NONE as usize <= words {
        return true;
    }
    index < Store::INDEX * (words / 2) + 1
}

// Where the node at `at` ends: its arguments are cut where the words end.
fn node_end(from: &[u32], at: usize) -> usize
    requires { at + 1 < length from.now }
    ensures { result ≡ end_of from.now at }
{
    let n = from[at] as usize;
    if from.len() - (at + 2) < n {
        return from.len();
    }
    at + 2 + n
}

// The node at `at` is interned, if there is one, and its number becomes number `i`.
fn intern_one(
    from: &[u32],
    index: &mut [u32],
    words: &mut [u32],
    numbers: &mut [u32],
    st: Store,
    at: usize,
    i: usize,
) -> Turn
    requires { Stored index.old words.old st × Halfway from.now numbers.old (nodes words.old st) at i × (i < length numbers.old) }
    ensures { Turned from.now index.new words.new numbers.new st i result }
{
    if from.len() <= at + 1 {
        return Turn::End;
    }
    let end = node_end(from, at);
    match st.intern(index, words, &from[at + 1..end]) {
        Some((p, next)) => {
            numbers[i] = p.0;
            Turn::Next(next, end)
        }
        None => Turn::Full,
    }
}

// A new store, and a turn for each place in `numbers` until no node is left: the store, and how many nodes were interned; none where the
// words have no room.
fn intern_nodes(
    from: &[u32],
    index: &mut [u32],
    words: &mut [u32],
    numbers: &mut [u32],
) -> Option<(Store, usize)>
    requires { Enough index.old words.old }
    ensures { Ran from.now index.new words.new numbers.new result }
{
    let mut st = Store::new(index, words);
    let mut at = 0;
    let mut i = 0;
    while i < numbers.len() {
        match intern_one(from, index, words, numbers, st, at, i) {
            Turn::Next(next, end) => {
                st = next;
                at = end;
                i += 1;
            }
            Turn::End => {
                return Some((st, i));
            }
            Turn::Full => {
                return None;
            }
        }
    }
    Some((st, i))
}

// Zeros all over, and the code.
fn refuse(index: &mut [u32], words: &mut [u32], numbers: &mut [u32], code: u64) -> Tried
    ensures { ◌≡◌ {A = Left} (record { answer = result; index = index.new; words = words.new; numbers = numbers.new }) (refused code (length index.old) (length words.old) (length numbers.old)) }
{
    index.fill(0);
    words.fill(0);
    numbers.fill(0);
    Tried {
        code: code,
        nodes: 0,
    }
}

// Zeros behind the store's words and the first `n` numbers, and all over the index.
fn finish(index: &mut [u32], words: &mut [u32], numbers: &mut [u32], st: Store, n: usize) -> Tried
    requires { Stored index.old words.old st × (n ≤ length numbers.old) }
    ensures { ◌≡◌ {A = Left} (record { answer = result; index = index.new; words = words.new; numbers = numbers.new }) (leaves 0 (length (nodes words.old st)) (pattern_words (nodes words.old st)) (take n numbers.old) (length index.old) (length words.old) (length numbers.old)) }
{
    index.fill(0);
    fill_from(words, st.used(), 0);
    fill_from(numbers, n, 0);
    Tried {
        code: 0,
        nodes: st.len() as u64,
    }
}

// Each node in `from` is interned in order into a new store over `index` and `words`, and its number is written to `numbers`.
#[unsafe(no_mangle)]
pub extern "C" fn intern_all(
    from: &[u32],
    index: &mut [u32],
    words: &mut [u32],
    numbers: &mut [u32],
) -> Tried
    ensures { ◌≡◌ {A = Left} (record { answer = result; index = index.new; words = words.new; numbers = numbers.new }) (tried from.now (length index.old) (length words.old) (length numbers.old)) }
{
    if lengths_unfit(index.len(), words.len()) {
        return refuse(index, words, numbers, 2);
    }
    match intern_nodes(from, index, words, numbers) {
        Some((st, n)) => finish(index, words, numbers, st, n),
        None => refuse(index, words, numbers, 8),
    }
}
