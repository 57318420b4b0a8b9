// A step of building: the rule's next word, or the innermost open symbol all of whose terms are built.
ghost use Rattle.std.specs.Prelude.{◌+◌, ◌<◌, ◌≤◌, length};
ghost use Rattle.definition.specs.Pack.{most_variables};
ghost use Rattle.emit_premises.specs.Turned.{Valued, CloseAsked, Closed, ReadAsked, WordRead, Asked, Turned, Leaves};
ghost use Rattle.emit_premises.specs.Frames.{word_limit};

use crate::building::{Building, Opening};
use base::id::Prefix;
use emit_match::places::Matching;
use pack_read::rule::rule_word;
use pack_read::symbol::symbol_arity;
use pack_tables::catalog::Catalog;

// The next state; the premises are all built; or a variable has no value.
#[derive(Clone, Copy)]
pub enum Turn {
    Next(Building),
    Full,
    Lacks,
}

// Variable `k`, whose value stands behind `at`; a turn always.
fn give_value(work: &[u32], stack: &mut [u32], at: usize, b: Building, k: usize) -> Option<Turn>
    requires { (at + most_variables ≤ length work.now) × (k < most_variables) × (b.top < length stack.old) × (b.next < word_limit) }
    ensures { Valued work.now stack.old stack.new at b k result }
{
    let v = work[at + k];
    if v == 0 {
        return Some(Turn::Lacks);
    }
    Some(Turn::Next(b.give(stack, v - 1)))
}

// The next word of rule `r`, which has so many variables; their values stand behind `at`. None where there is no room for a node.
fn read_turn(
    pack: &[u8],
    work: &[u32],
    stack: &mut [u32],
    c: Catalog,
    at: usize,
    r: usize,
    vars: usize,
    b: Building,
) -> Option<Turn>
    requires { ReadAsked pack.now work.now stack.old c at r vars b }
    ensures { WordRead pack.now work.now stack.old stack.new c at r b result }
{
    let w = rule_word(pack, work, c, r, vars, b.next);
    if w < Prefix::VAR {
        let arity = symbol_arity(pack, work, c, w as usize);
        return Some(Turn::Next(b.open(stack, w, arity)));
    }
    let k = (w - Prefix::VAR) as usize;
    give_value(work, stack, at, b, k)
}

// The innermost open symbol becomes a pattern, if there is room for a node.
fn close_turn(
    work: &mut [u32],
    words: &mut [u32],
    stack: &mut [u32],
    m: Matching,
    b: Building,
) -> Option<Turn>
    requires { CloseAsked work.old words.old stack.old m b }
    ensures { Closed work.old work.new words.old words.new stack.old stack.new m b result }
{
    let base = b.base;
    let from = base + Opening::HEAD;
    let index = &mut work[m.index..m.end];
    let (p, grown) = b.store.intern(index, words, &stack[from..b.top])?;
    let around = stack[base];
    stack[base] = p.0;
    Some(Turn::Next(Building {
        store: grown,
        base: around as usize,
        top: base + 1,
        next: b.next,
    }))
}

// A step in building the premises of rule `r`, which has so many variables; or there is no room for a node.
pub fn build_turn(
    pack: &[u8],
    work: &mut [u32],
    words: &mut [u32],
    stack: &mut [u32],
    m: Matching,
    r: usize,
    vars: usize,
    b: Building,
) -> Option<Turn>
    requires { Asked pack.now work.old words.old stack.old m r vars b }
    ensures turn { Turned pack.now work.old words.old words.new stack.old stack.new m r b result }
    ensures frame { Leaves work.old work.new words.new m b result }
{
    let base = b.base;
    let full = stack[base + Opening::END];
    if full as usize != b.top {
        return read_turn(pack, work, stack, m.catalog, m.values, r, vars, b);
    }
    if base == 0 {
        return Some(Turn::Full);
    }
    close_turn(work, words, stack, m, b)
}
