// `prove` and `chain`, as document 01 names them, and what stands between: one rule, and its premises.
ghost use Rattle.std.specs.Prelude.{[], ◌-◌, ◌≤◌, ◌<◌};
ghost use Rattle.emission.specs.Prove.{prove as proving, chain as chaining, by_rule};
ghost use Rattle.emit_state.specs.Holding.{lends, levels, Asked, Answers, Lined};
ghost use Rattle.emit_search.specs.Trying.{deeper, finishing, AskedByRule, AnswersRule, AskedAll, AnswersAll};

use crate::failed::{Depth, gives_up, note_failed};
use crate::known::{known, remember};
use crate::rules::{first_rule, next_rule};
use base::limit::Limit;
use emit_premises::premises::Premises;
use emit_premises::rule::premises;
use emit_state::places::Places;
use emit_state::standing::{Proved, Standing};
use emit_words::state::write_step;

// Judgment `j` at a depth: what has a line is asked first; below the last level nothing is tried, nor what failed before.
pub fn prove(
    pack: &[u8],
    work: &mut [u32],
    words: &mut [u32],
    proof: &mut [u8],
    l: Places,
    m: Standing,
    j: u32,
    depth: u32,
) -> Proved
    requires { Asked (lends pack.now work.old words.old proof.old) l m j × (depth ≤ levels) }
    ensures { Answers (lends pack.now work.old words.old proof.old) (lends pack.now work.new words.new proof.new) l m j (λ w. proving (levels - depth) w.setting w.hyps j) result }
{
    match known(work, l, j) {
        Some(n) => {
            return Proved::Line(m, n);
        }
        None => {}
    }
    if gives_up(work, l, m.failed, j, depth) {
        return Proved::Fails(m);
    }
    match chain(pack, work, words, proof, l, m, j, depth) {
        Proved::Line(t, n) => Proved::Line(remember(work, l, t, j, n), n),
        Proved::Fails(t) => {
            note_failed(work, l, m.text, t, j, depth);
            Proved::Fails(t)
        }
        Proved::Refused(x) => Proved::Refused(x),
    }
}

// Judgment `j` by the first rule of its predicate that proves it.
#[cycle(by_rule_chain_prove_all_prove_premise)]
pub fn chain(
    pack: &[u8],
    work: &mut [u32],
    words: &mut [u32],
    proof: &mut [u8],
    l: Places,
    m: Standing,
    j: u32,
    depth: u32,
) -> Proved
    requires { Asked (lends pack.now work.old words.old proof.old) l m j × (depth < levels) }
    ensures answer { Answers (lends pack.now work.old words.old proof.old) (lends pack.now work.new words.new proof.new) l m j (λ w. chaining w.setting (deeper w depth) j) result }
    ensures line { Lined result }
{
    let mut r = first_rule(work, words, l, m.store, j);
    let mut t = m;
    loop {
        if Limit::RULES as u32 <= r {
            break Proved::Fails(t);
        }
        match by_rule(pack, work, words, proof, l, t, j, r, depth) {
            Proved::Line(u, n) => {
                break Proved::Line(u, n);
            }
            Proved::Refused(x) => {
                break Proved::Refused(x);
            }
            Proved::Fails(u) => {
                t = u;
            }
        }
        r = next_rule(work, l, r);
    }
}

// Judgment `j` by rule `r`: its premises in their order, one level deeper, then its line.
#[cycle(by_rule_chain_prove_all_prove_premise)]
fn by_rule(
    pack: &[u8],
    work: &mut [u32],
    words: &mut [u32],
    proof: &mut [u8],
    l: Places,
    m: Standing,
    j: u32,
    r: u32,
    depth: u32,
) -> Proved
    requires { AskedByRule (lends pack.now work.old words.old proof.old) l m j r × (depth < levels) }
    ensures answer { AnswersRule (lends pack.now work.old words.old proof.old) (lends pack.now work.new words.new proof.new) l m j r (λ w. by_rule w.setting (deeper w depth) j r) result }
    ensures line { Lined result }
{
    let mut qs = [0; Limit::PREMISES];
    match premises(pack, work, words, l, m, j, r, &mut qs) {
        Err(x) => Proved::Refused(x),
        Ok(Premises::Lacks(t)) => Proved::Fails(t),
        Ok(Premises::Built(t, n)) => prove_all(
            pack,
            work,
            words,
            proof,
            l,
            t,
            j,
            r,
            &mut qs[0..n],
            depth,
        ),
    }
}

// The same of a premise: what has one caller is put into its frame, so a level of the search has one frame, whoever calls `prove` or `chain`.
#[cycle(by_rule_chain_prove_all_prove_premise)]
fn prove_premise(
    pack: &[u8],
    work: &mut [u32],
    words: &mut [u32],
    proof: &mut [u8],
    l: Places,
    m: Standing,
    j: u32,
    depth: u32,
) -> Proved
    requires { Asked (lends pack.now work.old words.old proof.old) l m j × (depth ≤ levels) }
    ensures { Answers (lends pack.now work.old words.old proof.old) (lends pack.now work.new words.new proof.new) l m j (λ w. proving (levels - depth) w.setting w.hyps j) result }
{
    match known(work, l, j) {
        Some(n) => {
            return Proved::Line(m, n);
        }
        None => {}
    }
    if gives_up(work, l, m.failed, j, depth) {
        return Proved::Fails(m);
    }
    match chain(pack, work, words, proof, l, m, j, depth) {
        Proved::Line(t, n) => Proved::Line(remember(work, l, t, j, n), n),
        Proved::Fails(t) => {
            note_failed(work, l, m.text, t, j, depth);
            Proved::Fails(t)
        }
        Proved::Refused(x) => Proved::Refused(x),
    }
}

// The premises `qs` of rule `r` in their order; each gives way to its line. Then the rule's own line.
#[cycle(by_rule_chain_prove_all_prove_premise)]
fn prove_all(
    pack: &[u8],
    work: &mut [u32],
    words: &mut [u32],
    proof: &mut [u8],
    l: Places,
    m: Standing,
    j: u32,
    r: u32,
    qs: &mut [u32],
    depth: u32,
) -> Proved
    requires { AskedAll (lends pack.now work.old words.old proof.old) l m j qs.old × (depth < levels) }
    ensures answer { AnswersAll (lends pack.now work.old words.old proof.old) (lends pack.now work.new words.new proof.new) l m j qs.old (λ w. finishing w.setting (deeper w depth) j r qs.old []) result }
    ensures line { Lined result }
{
    let mut t = m;
    for i in 0..qs.len() {
        match prove_premise(pack, work, words, proof, l, t, qs[i], depth + 1) {
            Proved::Line(u, k) => {
                t = u;
                qs[i] = k;
            }
            Proved::Fails(u) => {
                return Proved::Fails(u);
            }
            Proved::Refused(x) => {
                return Proved::Refused(x);
            }
        }
    }
    write_step(pack, work, words, proof, l, t, j, r, qs)
}
