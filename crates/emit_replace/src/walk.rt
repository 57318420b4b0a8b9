// The walk to a pattern all of whose arguments have values.
ghost use Rattle.emit_replace.specs.Reading.{args_in, values_in, At};
ghost use Rattle.emit_replace.specs.Walking.{Opens, Waiting, Descends};

use crate::values::{argument, arguments, look_up};
use base::stack::Stack;
use emit_state::places::Places;
use memo::memo::Memo;
use store::nodes::Store;

// A pattern that is reached, and those that wait for it.
#[derive(Clone, Copy)]
pub struct Reached {
    pub pattern: u32,
    pub under: Stack,
}

// The first argument of pattern `p` that has no value; none if all have one.
fn first_open(work: &[u32], words: &[u32], l: Places, st: Store, memo: Memo, p: u32) -> Option<u32>
    requires { At work.now words.now l st p }
    ensures { Opens (values_in work.now l memo) (args_in words.now st p) result }
{
    let n = arguments(work, words, l, st, p);
    for i in 0..n {
        let a = argument(work, words, l, st, p, i);
        if look_up(work, l, memo, a).is_none() {
            return Some(a);
        }
    }
    None
}

// From pattern `p` down by first arguments that have no value, to one whose arguments all have one; those on the way wait.
pub fn descend(
    work: &mut [u32],
    words: &[u32],
    l: Places,
    st: Store,
    memo: Memo,
    p: u32,
    stack: Stack,
) -> Reached
    requires { Waiting work.old words.now l st memo p stack }
    ensures { Descends work.old work.new words.now l st memo p stack result }
{
    let mut top = p;
    let mut wait = stack;
    loop {
        match first_open(work, words, l, st, memo, top) {
            Some(a) => {
                wait = wait.push(work, top);
                top = a;
            }
            None => {
                break Reached {
                    pattern: top,
                    under: wait,
                };
            }
        }
    }
}
