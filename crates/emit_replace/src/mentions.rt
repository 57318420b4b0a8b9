// Whether a pattern stands in another.
ghost use Rattle.std.specs.Prelude.{◌≡◌};
ghost use Rattle.emit_replace.specs.Mentions.{bit, any_one};
ghost use Rattle.emit_replace.specs.Reading.{args_in, values_in, At};
ghost use Rattle.emit_replace.specs.Asking.{Asked, AsksOn, AsksAll, Mentioned};
ghost use Rattle.emit_replace.specs.Telling.{Mentionable, Tells};

use crate::values::{argument, arguments, begin, remember, value_of};
use crate::walk::descend;
use base::stack::Stack;
use emit_state::places::Places;
use emit_state::standing::Standing;
use memo::memo::Memo;
use store::nodes::Store;

// The value of a pattern in which the one asked for stands, and that of others.
#[derive(Clone, Copy)]
struct Mark(u32);

impl Mark {
    const YES: u32 = 1;

    const NO: u32 = 0;
}

// The next pattern, and those that wait behind it; or what the last one's value is.
#[derive(Clone, Copy)]
enum Told {
    On(u32, Stack),
    Done(u32),
}

// The value of pattern `p` by its arguments'.
fn mark_of(work: &[u32], words: &[u32], l: Places, st: Store, memo: Memo, p: u32) -> u32
    requires { At work.now words.now l st p }
    ensures { result ≡ bit (any_one (values_in work.now l memo) (args_in words.now st p)) }
{
    let n = arguments(work, words, l, st, p);
    for i in 0..n {
        let a = argument(work, words, l, st, p, i);
        if value_of(work, l, memo, a) == Mark::YES {
            return Mark::YES;
        }
    }
    Mark::NO
}

// One pattern more gets its value: one below `p`, or `p` itself.
fn ask_turn(
    work: &mut [u32],
    words: &[u32],
    l: Places,
    st: Store,
    memo: Memo,
    p: u32,
    stack: Stack,
) -> Told
    requires { Asked work.old words.now l st memo p stack }
    ensures { AsksOn work.old work.new words.now l st memo p stack result }
{
    let top = descend(work, words, l, st, memo, p, stack);
    let q = top.pattern;
    let mark = mark_of(work, words, l, st, memo, q);
    remember(work, l, memo, q, mark);
    match top.under.pop(work) {
        Some((next, rest)) => Told::On(next, rest),
        None => Told::Done(mark),
    }
}

// The value of pattern `j`, by those of all below it.
fn ask_all(work: &mut [u32], words: &[u32], l: Places, st: Store, memo: Memo, j: u32) -> u32
    requires { AsksAll work.old words.now l st memo j }
    ensures { Mentioned work.old work.new words.now l st memo j result }
{
    let mut p = j;
    let mut stack = Stack {
        at: l.walk(),
        len: 0,
    };
    loop {
        match ask_turn(work, words, l, st, memo, p, stack) {
            Told::On(next, rest) => {
                p = next;
                stack = rest;
            }
            Told::Done(mark) => {
                break mark;
            }
        }
    }
}

// Whether pattern `x` is pattern `j` or stands in it.
pub fn mentions(work: &mut [u32], words: &[u32], l: Places, m: Standing, x: u32, j: u32) -> bool
    requires { Mentionable work.old words.now l m x j }
    ensures { Tells work.old work.new words.now l m x j result }
{
    if j == x {
        return true;
    }
    let memo = begin(work, l, x, Mark::YES);
    ask_all(work, words, l, m.store, memo, j) == Mark::YES
}
