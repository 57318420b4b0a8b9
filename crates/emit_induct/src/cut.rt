// A cut judgment's proof: by rules, or, if it mentions L, by induction on L.
ghost use Rattle.std.specs.Prelude.{◌≡◌, ◌<◌, length};
ghost use Rattle.emission.specs.Induct.{by_induction, prove_cut};
ghost use Rattle.emit_state.specs.Holding.{lends};
ghost use Rattle.emit_case.specs.Asked.{AskedFor, AnswersFor};
ghost use Rattle.emit_case.specs.Case.{tries};
ghost use Rattle.emit_induct.specs.Cases.{Plain, room_for_cases};
ghost use Rattle.emit_induct.specs.Cutting.{Untried};

use crate::cases::induct;
use emit_case::goal::{Inducting, Level};
use emit_replace::mentions::mentions;
use emit_search::known::remember;
use emit_search::prove::prove;
use emit_state::places::Places;
use emit_state::standing::{Proved, Standing};

// The judgment by induction, if it mentions L; then it is kept as proved.
fn by_induction(
    pack: &[u8],
    work: &mut [u32],
    words: &mut [u32],
    proof: &mut [u8],
    l: Places,
    m: Standing,
    g: Inducting,
    cases: &mut [u32],
) -> Proved
    requires { AskedFor (lends pack.now work.old words.old proof.old) l m (Untried l g) × (length cases.old ≡ room_for_cases) × (g.sort < l.hand.catalog.cap) }
    ensures { AnswersFor (lends pack.now work.old words.old proof.old) (lends pack.now work.new words.new proof.new) l m (Untried l g) (λ w. by_induction w.setting (tries w) g.judgment) result }
{
    if !mentions(work, words, l, m, g.eigen, g.judgment) {
        return Proved::Fails(m);
    }
    match induct(pack, work, words, proof, l, m, g, cases) {
        Proved::Line(t, n) => Proved::Line(remember(work, l, t, g.judgment, n), n),
        Proved::Fails(t) => Proved::Fails(t),
        Proved::Refused(x) => Proved::Refused(x),
    }
}

// The judgment by rules from depth 0, or else by induction.
pub fn prove_cut(
    pack: &[u8],
    work: &mut [u32],
    words: &mut [u32],
    proof: &mut [u8],
    l: Places,
    m: Standing,
    g: Inducting,
    cases: &mut [u32],
) -> Proved
    requires { AskedFor (lends pack.now work.old words.old proof.old) l m (Plain g) × (length cases.old ≡ room_for_cases) × (g.sort < l.hand.catalog.cap) }
    ensures { AnswersFor (lends pack.now work.old words.old proof.old) (lends pack.now work.new words.new proof.new) l m (Plain g) (λ w. prove_cut w.setting g.judgment) result }
{
    match prove(pack, work, words, proof, l, m, g.judgment, Level::FIRST) {
        Proved::Line(t, n) => Proved::Line(t, n),
        Proved::Fails(t) => by_induction(pack, work, words, proof, l, t, g, cases),
        Proved::Refused(x) => Proved::Refused(x),
    }
}
