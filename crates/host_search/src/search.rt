// The search for one judgment, from the pack on.
ghost use Rattle.std.specs.Prelude.{◌≡◌, length};
ghost use Rattle.host_search.specs.Came.{Left, lent_to, opened};
ghost use Rattle.host_search.specs.Ends.{Comes};
ghost use Rattle.host_search.specs.Searched.{pack_searched, proved_leaves};
ghost use Rattle.host_search.specs.Begun.{Beginning, BegunFrom};
ghost use Rattle.host_search.specs.Opened.{places_for, Low, Opened, Asking};
ghost use Rattle.host_search.specs.Calls.{FromNode, FromPack};

use crate::answer::{Searched, leave, seek};
use crate::asked::{Query, is_asked};
use crate::judged::intern_judgment;
use base::id::Ground;
use definition::{Answer, Buffer, Refusal};
use dock_call::answer::outcome_answer;
use dock_call::lent::Lent;
use dock_call::opening::open_pack;
use emit_lines::word::Hand;
use emit_search::prove::prove;
use emit_state::begin::begin;
use emit_state::places::Places;
use host_walk::place::{lifting, open_store};
use pack_reader::read::tables;
use pack_tables::catalog::Catalog;
use store::nodes::Store;
use term_lift::lift::Lifted;

// Where the search has its words: behind those of lifting, whose index is the store's.
fn places_for(words: &[u32], c: Catalog, l: Lifted, name: u32) -> Places
    requires { Low l }
    ensures { result ≡ places_for (length words.now) c l name }
{
    Places {
        hand: Hand {
            catalog: c,
            name: name,
        },
        index: l.at + Lifted::NODE * l.nodes,
        at: l.end,
        room: words.len() / Store::LEAST,
    }
}

// Judgment `j` of a store is searched for from a state without lines.
fn search_from(
    pack: &[u8],
    work: &mut [u32],
    words: &mut [u32],
    proof: &mut [u8],
    l: Places,
    st: Store,
    j: u32,
    q: Query,
) -> Result<(u64, usize), Answer>
    requires { Beginning pack.now work.old words.old (length proof.old) l st j q }
    ensures { BegunFrom pack.now work.old words.old proof.new (length proof.old) l st j q result }
{
    let m = begin(pack, work, words, l, st);
    let depth = q.depth;
    seek(prove(pack, work, words, proof, l, m, j, depth))
}

// The judgment that is asked for gets its pattern, and is searched for.
fn search_node(
    pack: &[u8],
    work: &mut [u32],
    words: &mut [u32],
    proof: &mut [u8],
    c: Catalog,
    q: Query,
) -> Result<(u64, usize), Answer>
    requires { Asking pack.now work.old (length words.old) (length proof.old) c q }
    ensures { FromNode pack.now work.old proof.new (length words.old) (length proof.old) c q result }
{
    let l = lifting(work, words, c);
    let empty = open_store(pack, work, words, c, l);
    let Some((j, st)) = intern_judgment(pack, work, words, c, l, empty, Ground(q.node)) else {
        return Err(outcome_answer(Err(Refusal::Short(Buffer::PATTERN))));
    };
    let places = places_for(words, c, l, q.name);
    search_from(pack, work, words, proof, places, st, j.0, q)
}

// The same of what may not be there.
fn search_opened(
    pack: &[u8],
    work: &mut [u32],
    words: &mut [u32],
    proof: &mut [u8],
    q: Query,
) -> Result<(u64, usize), Answer>
    requires { Opened pack.now work.old (length words.old) (length proof.old) }
    ensures { FromPack pack.now work.old proof.new (length words.old) (length proof.old) q result }
{
    let c = tables(pack);
    if is_asked(pack, work, c, q) {
        return search_node(pack, work, words, proof, c, q);
    }
    Err(Answer {
        code: Searched::WRONG,
        place: 0,
    })
}

// The lengths tested, the pack read, and the judgment searched for.
fn search_pack(
    pack: &[u8],
    work: &mut [u32],
    patterns: &mut [u32],
    proof: &mut [u8],
    q: Query,
) -> Result<(u64, usize), Answer>
    ensures { Comes proof.new (opened (lent_to (length pack.now) (length work.old) (length patterns.old) (length proof.old)) pack.now (λ l P. pack_searched l P q.node q.depth q.name)) result }
{
    let lent = Lent {
        pack: pack.len(),
        class: 0,
        pattern: patterns.len(),
        graph: 0,
        work: work.len(),
        text: proof.len(),
        goals: 0,
    };
    match open_pack(lent, pack, work) {
        Ok(()) => search_opened(pack, work, patterns, proof, q),
        Err(r) => Err(outcome_answer(Err(r))),
    }
}

// A proof of ground node `node`, a judgment, is searched for at a depth, without classes: L, with so many underscores to its name, is the
// only variable. The proof's lines are left in `proof`.
#[unsafe(no_mangle)]
pub extern "C" fn prove_judgment(
    pack: &[u8],
    work: &mut [u32],
    patterns: &mut [u32],
    proof: &mut [u8],
    node: u32,
    depth: u32,
    name: u32,
) -> Searched
    ensures { ◌≡◌ {A = Left} (record { answer = result; work = work.new; patterns = patterns.new; proof = proof.new }) (proved_leaves pack.now node depth name (length work.old) (length patterns.old) (length proof.old)) }
{
    let q = Query {
        node: node,
        depth: depth,
        name: name,
    };
    let sought = search_pack(pack, work, patterns, proof, q);
    leave(sought, work, patterns, proof)
}
