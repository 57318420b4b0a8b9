// All arguments of a judgment get words, and theirs before them, by a walk whose stack is in work.
ghost use Rattle.std.specs.Prelude.{◌≡◌, ◌+◌, ◌≤◌, length};
ghost use Rattle.base.specs.Stack.{stacked};
ghost use Rattle.emit_state.specs.Holding.{lends, Asked};
ghost use Rattle.emit_words.specs.Pending.{top_of};
ghost use Rattle.emit_words.specs.Walking.{Walking, Finishing, Turned};
ghost use Rattle.emit_words.specs.Readying.{Readied};

use crate::define::define;
use crate::gather::first_lacking;
use crate::spell::key_of;
use base::stack::Stack;
use emit_state::places::Places;
use emit_state::standing::Standing;

// A turn was taken, and these patterns wait; or none waits, and all arguments have words.
#[derive(Clone, Copy)]
pub enum Turn {
    Next(Standing, Stack),
    Done,
}

// What is to be looked at next: the pattern on top, or `j` itself.
fn top_of(work: &[u32], j: u32, s: Stack) -> u32
    requires { s.at + s.len ≤ length work.now }
    ensures { result ≡ top_of j (stacked s.at s.len work.now) }
{
    match s.pop(work) {
        Some((p, _)) => p,
        None => j,
    }
}

// The top `p`, all of whose arguments have words, is defined and taken off; none is left if it is the judgment. Or the text is short.
fn finish(
    pack: &[u8],
    work: &mut [u32],
    words: &[u32],
    proof: &mut [u8],
    l: Places,
    m: Standing,
    j: u32,
    p: u32,
    s: Stack,
) -> Option<Turn>
    requires { Finishing (lends pack.now work.old words.now proof.old) l m j p s }
    ensures { Turned (lends pack.now work.old words.now proof.old) (lends pack.now work.new words.now proof.new) l m j s result }
{
    if s.len == 0 {
        return Some(Turn::Done);
    }
    let t = define(pack, work, words, proof, l, m, p)?;
    let left = Stack {
        len: s.len - 1,
        ..s
    };
    Some(Turn::Next(t, left))
}

// The first argument of the top that has no word is put on it; if there is none, the top is finished. Or the text is short.
fn take_turn(
    pack: &[u8],
    work: &mut [u32],
    words: &[u32],
    proof: &mut [u8],
    l: Places,
    m: Standing,
    j: u32,
    s: Stack,
) -> Option<Turn>
    requires { Walking (lends pack.now work.old words.now proof.old) l m j s }
    ensures { Turned (lends pack.now work.old words.now proof.old) (lends pack.now work.new words.now proof.new) l m j s result }
{
    let p = top_of(work, j, s);
    let key = key_of(work, words, l, m, p);
    match first_lacking(work, words, l, m, key) {
        Some(a) => Some(Turn::Next(m, s.push(work, a))),
        None => finish(pack, work, words, proof, l, m, j, p, s),
    }
}

// Each argument of judgment `j` gets its word; none where the text is short.
pub fn name_words(
    pack: &[u8],
    work: &mut [u32],
    words: &[u32],
    proof: &mut [u8],
    l: Places,
    m: Standing,
    j: u32,
) -> Option<Standing>
    requires { Asked (lends pack.now work.old words.now proof.old) l m j }
    ensures { Readied (lends pack.now work.old words.now proof.old) (lends pack.now work.new words.now proof.new) l m j result }
{
    let mut t = m;
    let mut s = Stack {
        at: l.walk(),
        len: 0,
    };
    loop {
        match take_turn(pack, work, words, proof, l, t, j, s)? {
            Turn::Next(next, left) => {
                t = next;
                s = left;
            }
            Turn::Done => {
                return Some(t);
            }
        }
    }
}
