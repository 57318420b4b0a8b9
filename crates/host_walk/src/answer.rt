// What a call came to, and its answer with the buffers cleared.
ghost use Rattle.std.specs.Prelude.{◌≡◌, length};
ghost use Rattle.store.specs.Stored.{nodes};
ghost use Rattle.host_walk.specs.Came.{done, refused, Left, leaves};
ghost use Rattle.host_walk.specs.Walks.{Kept, Ends, came_of, Tells};

use base::id::Pattern;
use buffer::zero::fill_from;
use definition::Answer;
use store::nodes::Store;

// The answer: 0 with a pattern's number, how many variables are numbered and how many cells the graph has; or a refusal's number and
// place, with 0 and 0.
#[repr(C)]
#[derive(Clone, Copy)]
pub struct Walked {
    pub code: u64,
    pub at: u64,
    pub numbered: u64,
    pub cells: u64,
}

// A pattern's answer, with zeros behind the store's words.
fn finish(p: Pattern, st: Store, numbered: usize, used: usize, patterns: &mut [u32]) -> Walked
    requires { Kept patterns.old st }
    ensures { Tells (done p.0 (nodes patterns.old st) numbered used) result patterns.new (length patterns.old) }
{
    fill_from(patterns, st.used(), 0);
    Walked {
        code: 0,
        at: p.0 as u64,
        numbered: numbered as u64,
        cells: used as u64,
    }
}

// A refusal, with zeros for patterns.
fn refuse(code: u64, place: u64, patterns: &mut [u32]) -> Walked
    ensures { Tells (refused code place) result patterns.new (length patterns.old) }
{
    patterns.fill(0);
    Walked {
        code: code,
        at: place,
        numbered: 0,
        cells: 0,
    }
}

// The answer, with the patterns as a call leaves them.
fn tell(walk: Result<(Pattern, Store, usize, usize), Answer>, patterns: &mut [u32]) -> Walked
    requires { Ends patterns.old walk }
    ensures { Tells (came_of patterns.old walk) result patterns.new (length patterns.old) }
{
    match walk {
        Ok((p, st, numbered, used)) => finish(p, st, numbered, used, patterns),
        Err(a) => refuse(a.code, a.place, patterns),
    }
}

// The answer, with all buffers as a call leaves them.
pub fn leave(
    walk: Result<(Pattern, Store, usize, usize), Answer>,
    patterns: &mut [u32],
    cells: &mut [u32],
    work: &mut [u32],
) -> Walked
    requires { Ends patterns.old walk }
    ensures { ◌≡◌ {A = Left} (record { answer = result; patterns = patterns.new; cells = cells.new; work = work.new }) (leaves (came_of patterns.old walk) (length patterns.old) (length cells.old) (length work.old)) }
{
    let answer = tell(walk, patterns);
    cells.fill(0);
    fill_from(work, 0, 0);
    answer
}
