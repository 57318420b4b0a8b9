// The lines that state a judgment, behind the definitions of its words.
ghost use Rattle.std.specs.Prelude.{◌≡◌, ◌≤◌, get_or};
ghost use Rattle.definition.specs.Pack.{no_node};
ghost use Rattle.emission.specs.Line.{hyp_line, step_line_of, induct_line};
ghost use Rattle.emission.specs.Words.{step};
ghost use Rattle.store.specs.Stored.{nodes};
ghost use Rattle.emit_lines.specs.Cases.{cases_in};
ghost use Rattle.emit_state.specs.Holding.{lends, most_cells, Asked, Answers, Wrote};
ghost use Rattle.emit_words.specs.Putting.{Placed, PutsOver};
ghost use Rattle.emit_words.specs.Numbering.{Numbered};
ghost use Rattle.emit_words.specs.Stating.{stating};

use crate::gather::collect;
use crate::walk::name_words;
use base::limit::Limit;
use definition::{Buffer, Refusal};
use emit_lines::line::{put_hyp_line, put_induct_line, put_step_line};
use emit_state::places::Places;
use emit_state::standing::{Proved, Standing};

// A line with a step's number that ends at `end` was written, if the text has so much room. There are so many induct lines now.
fn numbered(m: Standing, end: usize, room: usize, inductions: u32) -> Proved
    requires { m.steps ≤ most_cells }
    ensures counts { Numbered m end room inductions result }
    ensures line { Wrote result }
{
    if room < end {
        return Proved::Refused(Refusal::Short(Buffer::TEXT));
    }
    Proved::Line(
        Standing {
            text: end,
            steps: m.steps + 1,
            inductions,
            ..m
        },
        m.steps,
    )
}

// The step line of judgment `j`, all of whose arguments have words.
fn put_step(
    pack: &[u8],
    work: &[u32],
    words: &[u32],
    proof: &mut [u8],
    l: Places,
    m: Standing,
    j: u32,
    rule: u32,
    refs: &[u32],
) -> usize
    requires { Placed (lends pack.now work.now words.now proof.old) l m j }
    ensures { PutsOver pack.now work.now words.now proof.old proof.new l m j (λ t. t.steps ≡ m.steps) (λ ws. step_line_of rule refs.now (record { predicate = (get_or (nodes words.now m.store) j no_node).head; words = ws })) result }
{
    let mut numbers = [0; Limit::ARITY];
    let said = collect(work, words, l, m, j, &mut numbers);
    put_step_line(
        pack,
        work,
        proof,
        l.hand,
        m.text,
        m.steps,
        rule,
        refs,
        said.head,
        &numbers[0..said.many],
    )
}

// Its hyp line.
fn put_hyp(
    pack: &[u8],
    work: &[u32],
    words: &[u32],
    proof: &mut [u8],
    l: Places,
    m: Standing,
    j: u32,
) -> usize
    requires { Placed (lends pack.now work.now words.now proof.old) l m j }
    ensures { PutsOver pack.now work.now words.now proof.old proof.new l m j (λ t. t.steps ≡ m.steps) (λ ws. hyp_line (record { predicate = (get_or (nodes words.now m.store) j no_node).head; words = ws })) result }
{
    let mut numbers = [0; Limit::ARITY];
    let said = collect(work, words, l, m, j, &mut numbers);
    put_hyp_line(
        pack,
        work,
        proof,
        l.hand,
        m.text,
        m.steps,
        said.head,
        &numbers[0..said.many],
    )
}

// Its induct line.
fn put_induct(
    pack: &[u8],
    work: &[u32],
    words: &[u32],
    proof: &mut [u8],
    l: Places,
    m: Standing,
    j: u32,
    cases: &[u32],
) -> usize
    requires { Placed (lends pack.now work.now words.now proof.old) l m j }
    ensures { PutsOver pack.now work.now words.now proof.old proof.new l m j (λ t. t.steps ≡ m.steps) (λ ws. induct_line (record { predicate = (get_or (nodes words.now m.store) j no_node).head; words = ws }) (cases_in cases.now)) result }
{
    let mut numbers = [0; Limit::ARITY];
    let said = collect(work, words, l, m, j, &mut numbers);
    put_induct_line(
        pack,
        work,
        proof,
        l.hand,
        m.text,
        m.steps,
        said.head,
        &numbers[0..said.many],
        cases,
    )
}

// Its words named, and then its step line.
fn name_and_put(
    pack: &[u8],
    work: &mut [u32],
    words: &[u32],
    proof: &mut [u8],
    l: Places,
    m: Standing,
    j: u32,
    rule: u32,
    refs: &[u32],
) -> Proved
    requires { Asked (lends pack.now work.old words.now proof.old) l m j }
    ensures answer { Answers (lends pack.now work.old words.now proof.old) (lends pack.now work.new words.now proof.new) l m j (λ w. step w.setting rule refs.now j) result }
    ensures line { Wrote result }
{
    let Some(t) = name_words(pack, work, words, proof, l, m, j) else {
        return Proved::Refused(Refusal::Short(Buffer::TEXT));
    };
    let end = put_step(pack, work, words, proof, l, t, j, rule, refs);
    numbered(t, end, proof.len(), t.inductions)
}

// The same, kept out of its callers' frames: a function that calls itself is not put into them. It never does: each pattern has room.
fn step_apart(
    pack: &[u8],
    work: &mut [u32],
    words: &[u32],
    proof: &mut [u8],
    l: Places,
    m: Standing,
    j: u32,
    rule: u32,
    refs: &[u32],
) -> Proved
    requires { Asked (lends pack.now work.old words.now proof.old) l m j }
    ensures answer { Answers (lends pack.now work.old words.now proof.old) (lends pack.now work.new words.now proof.new) l m j (λ w. step w.setting rule refs.now j) result }
    ensures line { Wrote result }
{
    if l.room <= j as usize {
        return step_apart(pack, work, words, proof, l, m, j, rule, refs);
    }
    name_and_put(pack, work, words, proof, l, m, j, rule, refs)
}

// Judgment `j` by a rule from the lines `refs`.
pub fn write_step(
    pack: &[u8],
    work: &mut [u32],
    words: &[u32],
    proof: &mut [u8],
    l: Places,
    m: Standing,
    j: u32,
    rule: u32,
    refs: &[u32],
) -> Proved
    requires { Asked (lends pack.now work.old words.now proof.old) l m j }
    ensures answer { Answers (lends pack.now work.old words.now proof.old) (lends pack.now work.new words.now proof.new) l m j (λ w. step w.setting rule refs.now j) result }
    ensures line { Wrote result }
{
    step_apart(pack, work, words, proof, l, m, j, rule, refs)
}

// Judgment `j` supposed.
pub fn write_hyp(
    pack: &[u8],
    work: &mut [u32],
    words: &[u32],
    proof: &mut [u8],
    l: Places,
    m: Standing,
    j: u32,
) -> Proved
    requires { Asked (lends pack.now work.old words.now proof.old) l m j }
    ensures answer { Answers (lends pack.now work.old words.now proof.old) (lends pack.now work.new words.now proof.new) l m j (stating (λ said. hyp_line said) j) result }
    ensures line { Wrote result }
{
    let Some(t) = name_words(pack, work, words, proof, l, m, j) else {
        return Proved::Refused(Refusal::Short(Buffer::TEXT));
    };
    let end = put_hyp(pack, work, words, proof, l, t, j);
    numbered(t, end, proof.len(), t.inductions)
}

// Judgment `j` by induction on L, with these cases.
pub fn write_induct(
    pack: &[u8],
    work: &mut [u32],
    words: &[u32],
    proof: &mut [u8],
    l: Places,
    m: Standing,
    j: u32,
    cases: &[u32],
) -> Proved
    requires { Asked (lends pack.now work.old words.now proof.old) l m j }
    ensures answer { Answers (lends pack.now work.old words.now proof.old) (lends pack.now work.new words.now proof.new) l m j (stating (λ said. induct_line said (cases_in cases.now)) j) result }
    ensures line { Wrote result }
{
    let Some(t) = name_words(pack, work, words, proof, l, m, j) else {
        return Proved::Refused(Refusal::Short(Buffer::TEXT));
    };
    let end = put_induct(pack, work, words, proof, l, t, j, cases);
    numbered(t, end, proof.len(), t.inductions + 1)
}
