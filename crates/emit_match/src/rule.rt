// A rule's conclusion against a pattern.
ghost use Rattle.std.specs.Prelude.{◌≡◌, ◌<◌, length};
ghost use Rattle.definition.specs.Pack.{rule_of};
ghost use Rattle.definition.proofs.Laws.Prefix.{terms_words};
ghost use Rattle.pack_read.specs.Held.{Held, OfHeld};
ghost use Rattle.store.specs.Stored.{nodes};
ghost use Rattle.emit_theory.specs.Stores.{SortedStore};
ghost use Rattle.emit_match.specs.Places.{Laid, Stays, Given};
ghost use Rattle.emit_match.specs.Partly.{Asked, Matched};
ghost use Rattle.emit_match.specs.Begins.{Begun, Answers};

use crate::places::Matching;
use crate::turn::match_turn;
use crate::values::clear_values;
use base::stack::Stack;
use check_steps::matching::Turn;
use pack_read::rule::{pass_terms, rule_premises, rule_vars};
use pack_tables::catalog::Catalog;

// The word of rule `r`, which has so many variables, that its conclusion starts with.
fn conclusion_from(pack: &[u8], work: &[u32], c: Catalog, r: usize, vars: usize) -> usize
    requires { (H : Held pack.now work.now c) × (r < length H.pack.rules) × (vars ≡ length (rule_of H.pack r).vars) }
    ensures { OfHeld pack.now work.now c (λ P. vars ≡ length (rule_of P r).vars → result ≡ length (terms_words (rule_of P r).premises)) }
{
    let premises = rule_premises(pack, work, c, r);
    pass_terms(pack, work, c, r, vars, 0, premises)
}

// No variable has a value, and pattern `p` is all that waits.
fn begin(work: &mut [u32], m: Matching, p: u32) -> Stack
    requires { Laid work.old m }
    ensures { Begun work.old work.new m p result }
{
    clear_values(work, m.values);
    let empty = Stack {
        at: m.stack,
        len: 0,
    };
    empty.push(work, p)
}

// The words of rule `r`, which has so many variables, from word `from` on against the patterns on the stack.
fn match_words(
    pack: &[u8],
    work: &mut [u32],
    words: &[u32],
    m: Matching,
    r: usize,
    vars: usize,
    s: Stack,
    from: usize,
) -> bool
    requires { Asked pack.now work.old words.now m r vars s from }
    ensures matched { Matched pack.now work.old work.new words.now m r s from result }
    ensures frame { Stays m work.old work.new }
{
    let mut left = s;
    let mut i = from;
    loop {
        match match_turn(pack, work, words, m, r, vars, left, i) {
            Turn::Next(next) => {
                left = next;
                i += 1;
            }
            Turn::Done => {
                return true;
            }
            Turn::Fails => {
                return false;
            }
        }
    }
}

// Whether the conclusion of rule `r` matches pattern `p`; if it does, the values' words hold its variables' values. What they hold if it
// doesn't, and what the stack's words hold, is left open.
pub fn match_rule(
    pack: &[u8],
    work: &mut [u32],
    words: &[u32],
    m: Matching,
    r: usize,
    p: u32,
) -> bool
    requires { (G : Given pack.now work.old words.now m) × (r < length G.held.pack.rules) × (p < length (nodes words.now m.store)) }
    ensures matched { OfHeld pack.now work.old m.catalog (λ P. SortedStore P (nodes words.now m.store) → Answers P (nodes words.now m.store) m r p work.new result) }
    ensures frame { Stays m work.old work.new }
{
    let vars = rule_vars(pack, work, m.catalog, r);
    let from = conclusion_from(pack, work, m.catalog, r, vars);
    let top = begin(work, m, p);
    match_words(pack, work, words, m, r, vars, top, from)
}
