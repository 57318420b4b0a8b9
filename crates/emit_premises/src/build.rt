// A rule's premises, built from their words.
ghost use Rattle.std.specs.Prelude.{◌≡◌, ◌≤◌, length};
ghost use Rattle.definition.specs.Pack.{most_premises};
ghost use Rattle.emit_premises.specs.Frames.{stack_words};
ghost use Rattle.emit_premises.specs.Turned.{Asked};
ghost use Rattle.emit_premises.specs.Ended.{Ended, Rests, Begins, BuildAsked, BuiltTo};

use crate::building::{Building, Opening};
use crate::turn::{Turn, build_turn};
use base::copy::copy_cells;
use emit_match::places::Matching;
use pack_read::rule::rule_vars;
use store::nodes::Store;

// The premises are all built; or a variable has no value.
#[derive(Clone, Copy)]
pub enum Built {
    All(Store),
    Lacks(Store),
}

// Nothing is built yet of so many premises.
fn begin(stack: &mut [u32], store: Store, premises: usize) -> Building
    requires { (length stack.old ≡ stack_words) × (premises ≤ most_premises) }
    ensures { Begins stack.new store premises result }
{
    stack[Opening::END] = (Opening::TERMS + premises) as u32;
    stack[Opening::HEAD] = 0;
    Building {
        store,
        base: 0,
        top: Opening::TERMS,
        next: 0,
    }
}

// One step after the other; or there is no room for a node.
fn build_words(
    pack: &[u8],
    work: &mut [u32],
    words: &mut [u32],
    stack: &mut [u32],
    m: Matching,
    r: usize,
    vars: usize,
    from: Building,
) -> Option<Built>
    requires { Asked pack.now work.old words.old stack.old m r vars from }
    ensures built { Ended pack.now work.old words.old words.new stack.old stack.new m r from result }
    ensures frame { Rests work.old work.new words.new m result }
{
    let mut b = from;
    loop {
        match build_turn(pack, work, words, stack, m, r, vars, b)? {
            Turn::Next(next) => {
                b = next;
            }
            Turn::Full => {
                return Some(Built::All(b.store));
            }
            Turn::Lacks => {
                return Some(Built::Lacks(b.store));
            }
        }
    }
}

// The premises of rule `r`, of which there are so many, into `qs`, by the values that stand in work; or there is no room for a node.
pub fn build_premises(
    pack: &[u8],
    work: &mut [u32],
    words: &mut [u32],
    m: Matching,
    r: usize,
    premises: usize,
    qs: &mut [u32],
) -> Option<Built>
    requires { BuildAsked pack.now work.old words.old m r premises × (length qs.old ≡ most_premises) }
    ensures built { BuiltTo pack.now work.old words.old words.new qs.new m r premises result }
    ensures frame { Rests work.old work.new words.new m result }
{
    let mut stack = [0; Opening::STACK];
    let vars = rule_vars(pack, work, m.catalog, r);
    let b = begin(&mut stack, m.store, premises);
    let x = build_words(pack, work, words, &mut stack, m, r, vars, b);
    let end = Opening::TERMS + premises;
    copy_cells(&stack[Opening::TERMS..end], &mut qs[0..premises]);
    x
}
