// A word of a rule against the pattern on top of the stack.
ghost use Rattle.emit_match.specs.Places.{Stays};
ghost use Rattle.emit_match.specs.Partly.{pattern_at, SymbolAsked, SymbolTold, Asked, Turned};

use crate::pending::push_arguments;
use crate::places::Matching;
use crate::values::bind;
use base::id::{Pattern, Prefix};
use base::stack::Stack;
use check_steps::matching::Turn;
use pack_read::rule::rule_word;

// Symbol `h` against pattern `p`, whose arguments are put ahead of the rest.
fn match_symbol(work: &mut [u32], words: &[u32], m: Matching, h: u32, p: u32, rest: Stack) -> Turn
    requires { SymbolAsked work.old words.now m h p rest }
    ensures { SymbolTold work.old work.new (pattern_at words.now m p) h rest result }
{
    let key = m.store.node(&work[m.index..m.end], words, Pattern(p));
    if key[0] != h {
        return Turn::Fails;
    }
    Turn::Next(push_arguments(work, key, rest))
}

// Word `i` of rule `r`, which has so many variables, against the pattern on top.
pub fn match_turn(
    pack: &[u8],
    work: &mut [u32],
    words: &[u32],
    m: Matching,
    r: usize,
    vars: usize,
    s: Stack,
    i: usize,
) -> Turn
    requires { Asked pack.now work.old words.now m r vars s i }
    ensures turn { Turned pack.now work.old work.new words.now m r s i result }
    ensures frame { Stays m work.old work.new }
{
    let Some((p, rest)) = s.pop(work) else {
        return Turn::Done;
    };
    let w = rule_word(pack, work, m.catalog, r, vars, i);
    if w < Prefix::VAR {
        return match_symbol(work, words, m, w, p, rest);
    }
    let k = (w - Prefix::VAR) as usize;
    if bind(work, m.values, k, p) {
        return Turn::Next(rest);
    }
    Turn::Fails
}
