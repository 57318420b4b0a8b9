// A constructor's case: its variables, its term, its hypotheses, then the judgment of its term by a rule.
ghost use Rattle.std.specs.Prelude.{◌≡◌, ◌∷◌, ◌++◌, ◌+◌, ◌≤◌, ◌<◌, length, take};
ghost use Rattle.definition.specs.Pack.{most_arity};
ghost use Rattle.definition.specs.Store.{nothing};
ghost use Rattle.emit_state.specs.Holding.{lends, Lined};
ghost use Rattle.emit_case.specs.Asked.{AskedFor, AnswersFor};
ghost use Rattle.emit_case.specs.Case.{most_key, most_case, Cased, Varied, InCase, over_case, case_numbers, CaseAnswers};

use crate::goal::Inducting;
use crate::intern::intern;
use crate::suppose::prove_supposing;
use crate::variables::{case_variables, recursive};
use base::copy::copy_cells;
use base::limit::Limit;
use definition::Refusal;
use emit_lines::case::Case;
use emit_state::places::Places;
use emit_state::standing::{Proved, Standing};

// So many numbers of cases with the state; no proof of one of them; or a short buffer.
#[derive(Clone, Copy)]
pub enum Cases {
    All(Standing, usize),
    Fails(Standing),
    Refused(Refusal),
}

// The numbers of cases: so many for one at most, its last line, how many variables it has, and these.
#[derive(Clone, Copy)]
pub struct Numbers(pub usize);

impl Numbers {
    pub const MOST: usize = 18;
    // Room for the cases of a sort's constructors, no more than there can be symbols.
    pub const ROOM: usize = 73728;
}

// The key of symbol `c` over `vs`, and how long it is.
fn lay_key(c: u32, vs: &[u32], key: &mut [u32]) -> usize
    requires { (length vs.now ≤ most_arity) × (length key.old ≡ most_key) }
    ensures { (result ≡ length vs.now + 1) × (take result key.new ≡ c ∷ vs.now) }
{
    let n = vs.len() + 1;
    key[0] = c;
    copy_cells(vs, &mut key[1..n]);
    n
}

// The term of constructor `c` over `vs`, then the judgment of it under the hypotheses of `rs`.
fn case_over(
    pack: &[u8],
    work: &mut [u32],
    words: &mut [u32],
    proof: &mut [u8],
    l: Places,
    m: Standing,
    g: Inducting,
    c: u32,
    vs: &[u32],
    rs: &[u32],
) -> Proved
    requires { AskedFor (lends pack.now work.old words.old proof.old) l m (Cased g c vs.now rs.now) }
    ensures answer { AnswersFor (lends pack.now work.old words.old proof.old) (lends pack.now work.new words.new proof.new) l m (Cased g c vs.now rs.now) (λ w. over_case w g.judgment c vs.now) result }
    ensures line { Lined result }
{
    let mut key = [0; Limit::KEY];
    let n = lay_key(c, vs, &mut key);
    match intern(work, words, l, m, &key[0..n]) {
        Ok((t, term)) => prove_supposing(pack, work, words, proof, l, t, g, term, rs),
        Err(x) => Proved::Refused(x),
    }
}

// The judgment of constructor `c` over its variables `vs`.
fn case_of(
    pack: &[u8],
    work: &mut [u32],
    words: &mut [u32],
    proof: &mut [u8],
    l: Places,
    m: Standing,
    g: Inducting,
    c: u32,
    vs: &[u32],
) -> Proved
    requires { AskedFor (lends pack.now work.old words.old proof.old) l m (Varied g c vs.now) }
    ensures answer { AnswersFor (lends pack.now work.old words.old proof.old) (lends pack.now work.new words.new proof.new) l m (Varied g c vs.now) (λ w. over_case w g.judgment c vs.now) result }
    ensures line { Lined result }
{
    let mut rs = [0; Limit::ARITY];
    let many = recursive(pack, work, l, g.sort, c, vs, &mut rs);
    case_over(pack, work, words, proof, l, m, g, c, vs, &rs[0..many])
}

// The numbers of a case from `at` on: its last line, and `n` variables from `first` on.
fn put_case(cases: &mut [u32], at: usize, last: u32, first: u32, n: usize)
    requires { (n ≤ most_arity) × (at + most_case ≤ length cases.old) × (first + most_case ≤ nothing) }
    ensures { take (at + 2 + n) cases.new ≡ take at cases.old ++ case_numbers last n first }
{
    cases[at] = last;
    cases[at + Case::MANY] = n as u32;
    let from = at + Case::VARIABLES;
    for i in 0..n {
        cases[from + i] = first + i as u32;
    }
}

// The case of constructor `c`; its numbers stand from `at` on.
pub fn induct_case(
    pack: &[u8],
    work: &mut [u32],
    words: &mut [u32],
    proof: &mut [u8],
    l: Places,
    m: Standing,
    g: Inducting,
    c: u32,
    cases: &mut [u32],
    at: usize,
) -> Cases
    requires { AskedFor (lends pack.now work.old words.old proof.old) l m (InCase g c) × (at + most_case ≤ length cases.old) }
    ensures { CaseAnswers (lends pack.now work.old words.old proof.old) (lends pack.now work.new words.new proof.new) l m g c cases.old cases.new at result }
{
    let first = m.variables + 1;
    let mut vs = [0; Limit::ARITY];
    match case_variables(pack, work, words, proof, l, m, c, &mut vs) {
        Ok((t, n)) => match case_of(pack, work, words, proof, l, t, g, c, &vs[0..n]) {
            Proved::Line(u, last) => {
                put_case(cases, at, last, first, n);
                Cases::All(u, at + Case::VARIABLES + n)
            }
            Proved::Fails(u) => Cases::Fails(u),
            Proved::Refused(x) => Cases::Refused(x),
        },
        Err(x) => Cases::Refused(x),
    }
}
