// What the call came to, and its answer with the buffers cleared.
ghost use Rattle.std.specs.Prelude.{◌≡◌, ◌≤◌, length, take};
ghost use Rattle.host_search.specs.Came.{told, refused, Left, leaves};
ghost use Rattle.host_search.specs.Ends.{Ends, came_of, Tells, sought_of};

use buffer::zero::fill_from;
use definition::Answer;
use dock_call::answer::outcome_answer;
use emit_state::standing::Proved;

// The answer: 0 and 0 with a line's number and one, or 0 for none, and the text's length; or a refusal's number and place, with 0 and 0.
#[repr(C)]
#[derive(Clone, Copy)]
pub struct Searched {
    pub code: u64,
    pub place: u64,
    pub line: u64,
    pub text: u64,
}

impl Searched {
    // The number of a refusal that document 01 has not: what is asked for is not there.
    pub const WRONG: u64 = 12;
}

// What a search comes to, as it is told: a line's number and one, or 0 for none, and where the text ends.
pub fn seek(p: Proved) -> Result<(u64, usize), Answer>
    ensures { result ≡ sought_of p }
{
    match p {
        Proved::Line(t, n) => Ok((n as u64 + 1, t.text)),
        Proved::Fails(t) => Ok((0, t.text)),
        Proved::Refused(x) => Err(outcome_answer(Err(x))),
    }
}

// A text's answer, with zeros behind it.
fn finish(line: u64, text: usize, proof: &mut [u8]) -> Searched
    requires { text ≤ length proof.old }
    ensures { Tells (told line (take text proof.old)) result proof.new (length proof.old) }
{
    fill_from(proof, text, 0);
    Searched {
        code: 0,
        place: 0,
        line: line,
        text: text as u64,
    }
}

// A refusal's answer, with zeros for a text.
fn deny(code: u64, place: u64, proof: &mut [u8]) -> Searched
    ensures { Tells (refused code place) result proof.new (length proof.old) }
{
    proof.fill(0);
    Searched {
        code: code,
        place: place,
        line: 0,
        text: 0,
    }
}

// The answer, with the text as the call leaves it.
fn tell(s: Result<(u64, usize), Answer>, proof: &mut [u8]) -> Searched
    requires { Ends proof.old s }
    ensures { Tells (came_of proof.old s) result proof.new (length proof.old) }
{
    match s {
        Ok((line, text)) => finish(line, text, proof),
        Err(a) => deny(a.code, a.place, proof),
    }
}

// The answer, with all buffers as the call leaves them.
pub fn leave(
    s: Result<(u64, usize), Answer>,
    work: &mut [u32],
    patterns: &mut [u32],
    proof: &mut [u8],
) -> Searched
    requires { Ends proof.old s }
    ensures { ◌≡◌ {A = Left} (record { answer = result; work = work.new; patterns = patterns.new; proof = proof.new }) (leaves (came_of proof.old s) (length work.old) (length patterns.old) (length proof.old)) }
{
    let answer = tell(s, proof);
    patterns.fill(0);
    work.fill(0);
    answer
}
