// A term as text with a budget, "one unit a node": a walk by a stack of the nodes whose brackets are open, from left to right. Each turn writes
// a byte at least, so the text's room bounds the time.
ghost use Rattle.std.specs.Prelude.{◌≡◌, suc, ◌+◌, ◌*◌, ◌<◌, length, get_or, set};
ghost use Rattle.definition.specs.Store.{nothing};
ghost use Rattle.text_write.specs.Walk.{Visiting, Visits, Turning, Turns, Finishing, Finishes, Writing, Writes};

use crate::node::{Shown, write_node};
use crate::put::{Text, put_byte, put_ellipsis};
use crate::source::{Source, argument_of, arity_of};
use base::stack::Frame;

// How far a walk is: how many frames there are, what is left of the budget, and where the text ends.
#[derive(Clone, Copy)]
pub struct Point {
    pub frames: usize,
    pub left: u64,
    pub at: usize,
}

// Node `x` gets a frame above `frames` others: none of its arguments is shown.
fn open_frame(work: &mut [u32], stack: usize, frames: usize, x: u32)
    requires { stack + 2 * frames + 1 < length work.old }
    ensures { work.new ≡ set (set work.old (stack + 2 * frames) x) (stack + 2 * frames + 1) 0 }
{
    let at = stack + Frame::WORDS * frames;
    work[at] = x;
    work[at + Frame::TAKEN] = 0;
}

// The node of the frame above `top` others.
fn frame_node(work: &[u32], stack: usize, top: usize) -> u32
    requires { stack + 2 * top + 1 < length work.now }
    ensures { result ≡ get_or work.now (stack + 2 * top) 0 }
{
    let at = stack + Frame::WORDS * top;
    work[at]
}

// How many of its arguments are shown.
fn frame_taken(work: &[u32], stack: usize, top: usize) -> u32
    requires { stack + 2 * top + 1 < length work.now }
    ensures { result ≡ get_or work.now (stack + 2 * top + 1) 0 }
{
    let at = stack + Frame::WORDS * top;
    work[at + Frame::TAKEN]
}

// One more of them is.
fn take_argument(work: &mut [u32], stack: usize, top: usize, taken: u32)
    requires { (stack + 2 * top + 1 < length work.old) × (taken < nothing) }
    ensures { work.new ≡ set work.old (stack + 2 * top + 1) (taken + 1) }
{
    let at = stack + Frame::WORDS * top;
    work[at + Frame::TAKEN] = taken + 1;
}

// Node `x` is come to: `…` if the budget is spent, else its own text; if its bracket is open then, it has a frame.
fn visit(
    pack: &[u8],
    work: &mut [u32],
    words: &[u32],
    text: &mut [u8],
    s: Source,
    stack: usize,
    p: Point,
    x: u32,
) -> Point
    requires { Visiting pack.now work.old words.now s stack p.frames x }
    ensures { Visits pack.now work.old work.new words.now text.old text.new s stack p x result }
{
    let left = p.left;
    let frames = p.frames;
    if left == 0 {
        let end = put_ellipsis(text, p.at);
        return Point {
            left: 0,
            at: end,
            ..p
        };
    }
    match write_node(pack, work, words, text, s, p.at, x) {
        Shown::Whole(at) => Point {
            left: left - 1,
            at,
            ..p
        },
        Shown::Open(at) => {
            open_frame(work, stack, frames, x);
            Point {
                frames: frames + 1,
                left: left - 1,
                at,
            }
        }
    }
}

// One turn on the frame on top: its node's next argument is come to; or the bracket is closed and the frame is gone.
fn turn(
    pack: &[u8],
    work: &mut [u32],
    words: &[u32],
    text: &mut [u8],
    s: Source,
    stack: usize,
    p: Point,
) -> Point
    requires { Turning pack.now work.old words.now s stack p.frames }
    ensures { Turns pack.now work.old work.new words.now text.old text.new s stack p result }
{
    let top = p.frames - 1;
    let x = frame_node(work, stack, top);
    let taken = frame_taken(work, stack, top);
    if arity_of(pack, work, words, s, x) <= taken as usize {
        let end = put_byte(text, p.at, b')');
        return Point {
            frames: top,
            at: end,
            ..p
        };
    }
    let y = argument_of(pack, work, words, s, x, taken as usize);
    take_argument(work, stack, top, taken);
    let end = put_byte(text, p.at, b' ');
    let on = Point { at: end, ..p };
    visit(pack, work, words, text, s, stack, on, y)
}

// The turns until no frame is left, or the text has no room for what the frames leave.
fn finish(
    pack: &[u8],
    work: &mut [u32],
    words: &[u32],
    text: &mut [u8],
    s: Source,
    stack: usize,
    start: Point,
) -> usize
    requires { Finishing pack.now work.old words.now s stack start.frames }
    ensures { Finishes pack.now work.old work.new words.now text.old text.new s stack start result }
{
    let mut p = start;
    while 0 < p.frames {
        if text.len() <= p.at {
            return Text::SHORT;
        }
        p = turn(pack, work, words, text, s, stack, p);
    }
    p.at
}

// The text of node `x` with a budget, put behind a text. The stack stands in work from `stack` on, and what it holds there is left open.
pub fn write_term(
    pack: &[u8],
    work: &mut [u32],
    words: &[u32],
    text: &mut [u8],
    s: Source,
    stack: usize,
    at: usize,
    budget: u64,
    x: u32,
) -> usize
    requires { Writing pack.now work.old words.now s stack x }
    ensures { Writes pack.now work.old work.new words.now text.old text.new s stack at budget x result }
{
    let start = Point {
        frames: 0,
        left: budget,
        at,
    };
    let p = visit(pack, work, words, text, s, stack, start, x);
    finish(pack, work, words, text, s, stack, p)
}
