// The hypotheses of a case: entered one by one, and dropped behind it.
ghost use Rattle.std.specs.Prelude.{◌≡◌, ◌≤◌, ◌<◌, length};
ghost use Rattle.definition.specs.Store.{nothing};
ghost use Rattle.emit_state.specs.Holding.{lends, Lined};
ghost use Rattle.emit_case.specs.Asked.{AskedFor, AnswersFor, Inducted, Termed, Recursive};
ghost use Rattle.emit_case.specs.Runs.{supposing_run};
ghost use Rattle.emit_case.specs.Supposing.{Entering, Entered, SupposesOne, SupposesAll, Dropping, Dropped};

use crate::goal::{Inducting, case_goal};
use base::limit::Limit;
use definition::Refusal;
use emit_maps::hyps::{drop_hyps, enter_hyp};
use emit_replace::put::put_for;
use emit_state::places::Places;
use emit_state::standing::{Proved, Standing};
use emit_words::state::write_hyp;
use memo::part::clear;

// Pattern `h` is supposed by line `n`: the failures are forgotten.
fn enter_hypothesis(work: &mut [u32], l: Places, m: Standing, h: u32, n: u32) -> Standing
    requires { Entering work.old l m × (h < l.room) × (n < nothing) }
    ensures { Entered work.old work.new l m h n result }
{
    let maps = l.maps();
    enter_hyp(work, maps, h, n);
    let from = l.failed();
    let to = l.replaced();
    let failed = clear(work, from, to, m.failed);
    Standing {
        failed,
        hyps: m.hyps + 1,
        ..m
    }
}

// The judgment of variable `v` is supposed: the state then, and the judgment's pattern; or a buffer is short.
fn suppose_one(
    pack: &[u8],
    work: &mut [u32],
    words: &mut [u32],
    proof: &mut [u8],
    l: Places,
    m: Standing,
    g: Inducting,
    v: u32,
) -> Result<(Standing, u32), Refusal>
    requires { AskedFor (lends pack.now work.old words.old proof.old) l m (Termed g v) × (m.hyps < nothing) }
    ensures { SupposesOne (lends pack.now work.old words.old proof.old) (lends pack.now work.new words.new proof.new) l m g v result }
{
    let (t, h) = put_for(work, words, l, m, g.eigen, v, g.judgment)?;
    match write_hyp(pack, work, words, proof, l, t, h) {
        Proved::Line(u, n) => Ok((enter_hypothesis(work, l, u, h, n), h)),
        Proved::Fails(u) => Ok((u, h)),
        Proved::Refused(x) => Err(x),
    }
}

// The judgment is supposed of each of the variables `rs`; `hs` gets the patterns that are supposed. Refused where a buffer is short.
fn suppose_each(
    pack: &[u8],
    work: &mut [u32],
    words: &mut [u32],
    proof: &mut [u8],
    l: Places,
    m: Standing,
    g: Inducting,
    rs: &[u32],
    hs: &mut [u32],
) -> Result<Standing, Refusal>
    requires { AskedFor (lends pack.now work.old words.old proof.old) l m (Recursive g rs.now) × (length rs.now ≤ length hs.old) × (m.hyps ≡ 0) }
    ensures { SupposesAll (lends pack.now work.old words.old proof.old) (lends pack.now work.new words.new proof.new) l m g rs.now hs.new result }
{
    let mut t = m;
    for (i, &r) in rs.iter().enumerate() {
        let (u, h) = suppose_one(pack, work, words, proof, l, t, g, r)?;
        t = u;
        hs[i] = h;
    }
    Ok(t)
}

// The hypotheses `hs` are out of scope: the failures are forgotten.
fn drop_hypotheses(work: &mut [u32], l: Places, m: Standing, hs: &[u32]) -> Standing
    requires { Dropping work.old l m hs.now }
    ensures { Dropped work.old work.new l m hs.now result }
{
    let maps = l.maps();
    drop_hyps(work, maps, hs, hs.len());
    let from = l.failed();
    let to = l.replaced();
    let failed = clear(work, from, to, m.failed);
    Standing {
        failed,
        hyps: 0,
        ..m
    }
}

// The judgment of `term` under the hypotheses of the variables `rs`, which are in scope here alone.
pub fn prove_supposing(
    pack: &[u8],
    work: &mut [u32],
    words: &mut [u32],
    proof: &mut [u8],
    l: Places,
    m: Standing,
    g: Inducting,
    term: u32,
    rs: &[u32],
) -> Proved
    requires { AskedFor (lends pack.now work.old words.old proof.old) l m (Inducted g term rs.now) }
    ensures answer { AnswersFor (lends pack.now work.old words.old proof.old) (lends pack.now work.new words.new proof.new) l m (Inducted g term rs.now) (λ w. supposing_run w.setting term g.judgment rs.now) result }
    ensures line { Lined result }
{
    let mut hs = [0; Limit::ARITY];
    let many = rs.len();
    match suppose_each(pack, work, words, proof, l, m, g, rs, &mut hs) {
        Ok(t) => match case_goal(pack, work, words, proof, l, t, g, term) {
            Proved::Line(u, n) => Proved::Line(drop_hypotheses(work, l, u, &hs[0..many]), n),
            Proved::Fails(u) => Proved::Fails(drop_hypotheses(work, l, u, &hs[0..many])),
            Proved::Refused(x) => Proved::Refused(x),
        },
        Err(x) => Proved::Refused(x),
    }
}
