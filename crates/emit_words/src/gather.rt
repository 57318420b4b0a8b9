// The words of a pattern's arguments.
ghost use Rattle.std.specs.Prelude.{◌+◌, ◌≤◌, ◌<◌, length, drop};
ghost use Rattle.definition.specs.Pack.{most_arity};
ghost use Rattle.emit_words.specs.Putting.{Collectable, Collected};
ghost use Rattle.emit_words.specs.Spelling.{Knows, KnowsAll, Numbers, Lacked, Gathers};

use crate::spell::{key_of, word_of};
use emit_state::places::Places;
use emit_state::standing::Standing;

// The head of a pattern, and how many arguments it has.
#[derive(Clone, Copy)]
pub struct Said {
    pub head: u32,
    pub many: usize,
}

// The word of pattern `p` as its number, if it has one.
fn number_of(work: &[u32], words: &[u32], l: Places, m: Standing, p: u32) -> u32
    requires { Knows work.now words.now l m p }
    ensures { Numbers work.now words.now l m p result }
{
    word_of(work, words, l, m, p).unwrap_or(0)
}

// The first argument of a key that has no word; none if all have one.
pub fn first_lacking(
    work: &[u32],
    words: &[u32],
    l: Places,
    m: Standing,
    key: &[u32],
) -> Option<u32>
    requires { KnowsAll work.now words.now l m key.now }
    ensures { Lacked work.now words.now l m (drop 1 key.now) result }
{
    for i in 1..key.len() {
        if word_of(work, words, l, m, key[i]).is_none() {
            return Some(key[i]);
        }
    }
    None
}

// The words of a key's arguments, all of which have one, as their numbers.
fn gather(work: &[u32], words: &[u32], l: Places, m: Standing, key: &[u32], numbers: &mut [u32])
    requires { KnowsAll work.now words.now l m key.now × (length key.now ≤ length numbers.old + 1) }
    ensures { Gathers work.now words.now l m (drop 1 key.now) numbers.new }
{
    for i in 1..key.len() {
        let at = i - 1;
        numbers[at] = number_of(work, words, l, m, key[i]);
    }
}

// Pattern `p`, all of whose arguments have words, by its head and these words' numbers.
pub fn collect(
    work: &[u32],
    words: &[u32],
    l: Places,
    m: Standing,
    p: u32,
    numbers: &mut [u32],
) -> Said
    requires { Collectable work.now words.now l m p × (most_arity ≤ length numbers.old) }
    ensures { Collected work.now words.now l m p numbers.new result }
{
    let key = key_of(work, words, l, m, p);
    gather(work, words, l, m, key, numbers);
    Said {
        head: key[0],
        many: key.len() - 1,
    }
}
