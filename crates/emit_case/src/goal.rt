// A case's goal: the judgment of the constructor's term, by a rule under the hypotheses in scope.
ghost use Rattle.emit_state.specs.Holding.{lends, Lined};
ghost use Rattle.emit_case.specs.Asked.{AskedFor, AnswersFor, Termed};
ghost use Rattle.emit_case.specs.Runs.{goal_run};

use emit_replace::put::put_for;
use emit_search::prove::chain;
use emit_state::places::Places;
use emit_state::standing::{Proved, Standing};

// What is proved by induction: L's pattern and sort, and the judgment.
#[derive(Clone, Copy)]
pub struct Inducting {
    pub eigen: u32,
    pub sort: u32,
    pub judgment: u32,
}

// "below depth 4,096": a case is chained at depth 1.
#[derive(Clone, Copy)]
pub struct Level(pub u32);

impl Level {
    pub const FIRST: u32 = 0;

    pub const CASE: u32 = 1;
}

// The judgment with `term` for L, by a rule.
pub fn case_goal(
    pack: &[u8],
    work: &mut [u32],
    words: &mut [u32],
    proof: &mut [u8],
    l: Places,
    m: Standing,
    g: Inducting,
    term: u32,
) -> Proved
    requires { AskedFor (lends pack.now work.old words.old proof.old) l m (Termed g term) }
    ensures answer { AnswersFor (lends pack.now work.old words.old proof.old) (lends pack.now work.new words.new proof.new) l m (Termed g term) (λ w. goal_run w term g.judgment) result }
    ensures line { Lined result }
{
    match put_for(work, words, l, m, g.eigen, term, g.judgment) {
        Ok((t, q)) => chain(pack, work, words, proof, l, t, q, Level::CASE),
        Err(x) => Proved::Refused(x),
    }
}
