// Judgments that were tried in vain.
ghost use Rattle.emit_search.specs.Failed.{Failing, GivenUp, Noted};

use emit_state::places::Places;
use emit_state::standing::Standing;
use memo::memo::Memo;
use memo::part::{get, put};

// How deep a proof goes: "`prove` fails below depth 4,096".
#[derive(Clone, Copy)]
pub struct Depth(pub u32);

impl Depth {
    pub const MOST: u32 = 4096;
}

// Whether judgment `j` is not to be tried at this depth: it is below the last level, or a try at this depth or a lesser one failed
// without a line, and nothing was proved since.
pub fn gives_up(work: &[u32], l: Places, failed: Memo, j: u32, depth: u32) -> bool
    requires { Failing work.now l failed j }
    ensures { GivenUp work.now l failed j depth result }
{
    if Depth::MOST < depth {
        return true;
    }
    let from = l.failed();
    let to = l.replaced();
    match get(work, from, to, failed, j as usize) {
        Some(k) => k <= depth,
        None => false,
    }
}

// Judgment `j` was tried in vain at this depth: if the text ends where it did, that is remembered.
pub fn note_failed(work: &mut [u32], l: Places, text: usize, m: Standing, j: u32, depth: u32)
    requires { Failing work.old l m.failed j }
    ensures { Noted work.old work.new l text m j depth }
{
    if m.text != text {
        return;
    }
    let from = l.failed();
    let to = l.replaced();
    put(work, from, to, m.failed, j as usize, depth);
}
