// All cases of an induction, and its line.
ghost use Rattle.std.specs.Prelude.{◌≡◌, ◌<◌, length};
ghost use Rattle.emission.specs.Induct.{induct as inducting};
ghost use Rattle.emit_state.specs.Holding.{lends, Lined};
ghost use Rattle.emit_case.specs.Asked.{AskedFor, AnswersFor};
ghost use Rattle.emit_case.specs.Case.{tries};
ghost use Rattle.emit_induct.specs.Cases.{Plain, room_for_cases, CasesAnswer};

use base::limit::Limit;
use emit_case::case::{Cases, induct_case};
use emit_case::goal::Inducting;
use emit_chains::follow::{first_of, next_of};
use emit_state::places::Places;
use emit_state::standing::{Proved, Standing};
use emit_words::state::write_induct;

// The constructors of L's sort, one by one: their cases' numbers stand in `cases`.
fn induct_cases(
    pack: &[u8],
    work: &mut [u32],
    words: &mut [u32],
    proof: &mut [u8],
    l: Places,
    m: Standing,
    g: Inducting,
    cases: &mut [u32],
) -> Cases
    requires { AskedFor (lends pack.now work.old words.old proof.old) l m (Plain g) × (length cases.old ≡ room_for_cases) × (g.sort < l.hand.catalog.cap) }
    ensures { CasesAnswer (lends pack.now work.old words.old proof.old) (lends pack.now work.new words.new proof.new) l m g cases.new result }
{
    let mut c = first_of(work, l.constructors(), g.sort as usize);
    let mut t = m;
    let mut at: usize = 0;
    loop {
        if Limit::SYMBOLS as u32 <= c {
            break Cases::All(t, at);
        }
        match induct_case(pack, work, words, proof, l, t, g, c, cases, at) {
            Cases::All(u, to) => {
                t = u;
                at = to;
            }
            Cases::Fails(u) => {
                break Cases::Fails(u);
            }
            Cases::Refused(x) => {
                break Cases::Refused(x);
            }
        }
        c = next_of(work, l.constructors(), c);
    }
}

// The judgment by induction on L: its cases, then its line.
pub fn induct(
    pack: &[u8],
    work: &mut [u32],
    words: &mut [u32],
    proof: &mut [u8],
    l: Places,
    m: Standing,
    g: Inducting,
    cases: &mut [u32],
) -> Proved
    requires { AskedFor (lends pack.now work.old words.old proof.old) l m (Plain g) × (length cases.old ≡ room_for_cases) × (g.sort < l.hand.catalog.cap) }
    ensures answer { AnswersFor (lends pack.now work.old words.old proof.old) (lends pack.now work.new words.new proof.new) l m (Plain g) (λ w. inducting w.setting (tries w) g.judgment) result }
    ensures line { Lined result }
{
    match induct_cases(pack, work, words, proof, l, m, g, cases) {
        Cases::All(t, to) => write_induct(
            pack,
            work,
            words,
            proof,
            l,
            t,
            g.judgment,
            &cases[0..to],
        ),
        Cases::Fails(t) => Proved::Fails(t),
        Cases::Refused(x) => Proved::Refused(x),
    }
}
