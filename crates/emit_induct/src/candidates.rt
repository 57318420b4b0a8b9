// The candidates for an output that is left open: the first of which the judgment proves.
ghost use Rattle.std.specs.Prelude.{◌≡◌, ◌∷◌, ◌+◌, ◌≤◌, ◌<◌, length, take};
ghost use Rattle.definition.specs.Pack.{most_arity};
ghost use Rattle.emission.specs.Choose.{filled};
ghost use Rattle.emit_state.specs.Holding.{lends};
ghost use Rattle.emit_case.specs.Asked.{AskedFor};
ghost use Rattle.emit_case.specs.Case.{most_key};
ghost use Rattle.emit_induct.specs.Cases.{room_for_cases};
ghost use Rattle.emit_induct.specs.Candidates.{arguments_in, fill_one, Fitting, AllFitting, TryAnswers, ChosenAnswers};

use crate::cut::prove_cut;
use base::id::Pattern;
use base::limit::Limit;
use definition::Refusal;
use emit_case::goal::Inducting;
use emit_case::intern::intern;
use emit_state::places::Places;
use emit_state::standing::{Proved, Standing};

// What an output is chosen for: L's pattern and sort, and the judgment's predicate.
#[derive(Clone, Copy)]
pub struct Output {
    pub eigen: u32,
    pub sort: u32,
    pub predicate: u32,
}

// The candidate that proves, with the state; none that does; or a short buffer.
#[derive(Clone, Copy)]
pub enum Chosen {
    At(Standing, u32),
    Nothing(Standing),
    Refused(Refusal),
}

// An argument, or the candidate for an open one.
fn fill(a: u32, c: u32) -> u32
    ensures { result ≡ fill_one c a }
{
    if a == Pattern::NONE {
        return c;
    }
    a
}

// The key of the judgment of `p` over the arguments with `c` for the open one, and how long it is.
fn lay_filled(p: u32, args: &[u32], c: u32, key: &mut [u32]) -> usize
    requires { (length args.now ≤ most_arity) × (length key.old ≡ most_key) }
    ensures { (result ≡ length args.now + 1) × (take result key.new ≡ p ∷ filled c (arguments_in args.now)) }
{
    key[0] = p;
    for (i, &a) in args.iter().enumerate() {
        key[i + 1] = fill(a, c);
    }
    args.len() + 1
}

// The judgment with candidate `c`: its pattern, then its proof.
fn try_candidate(
    pack: &[u8],
    work: &mut [u32],
    words: &mut [u32],
    proof: &mut [u8],
    l: Places,
    m: Standing,
    x: Output,
    args: &[u32],
    c: u32,
    cases: &mut [u32],
) -> Proved
    requires { AskedFor (lends pack.now work.old words.old proof.old) l m (Fitting x args.now c) × (length cases.old ≡ room_for_cases) × (x.sort < l.hand.catalog.cap) }
    ensures { TryAnswers (lends pack.now work.old words.old proof.old) (lends pack.now work.new words.new proof.new) l m x args.now c result }
{
    let mut key = [0; Limit::KEY];
    let n = lay_filled(x.predicate, args, c, &mut key);
    match intern(work, words, l, m, &key[0..n]) {
        Ok((t, j)) => {
            let g = Inducting {
                eigen: x.eigen,
                sort: x.sort,
                judgment: j,
            };
            prove_cut(pack, work, words, proof, l, t, g, cases)
        }
        Err(r) => Proved::Refused(r),
    }
}

// The candidates in their order, up to the first that proves: "lines of failed candidates stay".
pub fn first_proved(
    pack: &[u8],
    work: &mut [u32],
    words: &mut [u32],
    proof: &mut [u8],
    l: Places,
    m: Standing,
    x: Output,
    args: &[u32],
    candidates: &[u32],
    cases: &mut [u32],
) -> Chosen
    requires { AskedFor (lends pack.now work.old words.old proof.old) l m (AllFitting x args.now candidates.now) × (length cases.old ≡ room_for_cases) × (x.sort < l.hand.catalog.cap) }
    ensures { ChosenAnswers (lends pack.now work.old words.old proof.old) (lends pack.now work.new words.new proof.new) l m x args.now candidates.now result }
{
    let mut t = m;
    let mut i: usize = 0;
    loop {
        if candidates.len() <= i {
            break Chosen::Nothing(t);
        }
        let c = candidates[i];
        match try_candidate(pack, work, words, proof, l, t, x, args, c, cases) {
            Proved::Line(u, n) => {
                break Chosen::At(u, c);
            }
            Proved::Fails(u) => {
                t = u;
            }
            Proved::Refused(r) => {
                break Chosen::Refused(r);
            }
        }
        i += 1;
    }
}
