// A rule's words against nodes.
ghost use Rattle.std.specs.Prelude.{◌≡◌, [], length};
ghost use Rattle.definition.specs.Pack.{rule_of, most_variables};
ghost use Rattle.definition.specs.Verdict.{matched};
ghost use Rattle.base.specs.Stack.{stacked};
ghost use Rattle.pack_read.specs.Reads.{rule_words};
ghost use Rattle.pack_read.specs.Held.{Held, OfHeld};
ghost use Rattle.check_steps.specs.Words.{match_words};
ghost use Rattle.check_steps.specs.Matching.{Asked, Turned, Ready};

use crate::pending::push_arguments;
use crate::values::bind;
use base::id::{Ground, Prefix};
use base::stack::Stack;
use pack_read::node::node_head;
use pack_read::rule::{rule_vars, rule_word};
use pack_tables::catalog::Catalog;

// A word was matched, and these nodes are left; none was left; or something differs.
#[derive(Clone, Copy)]
pub enum Turn {
    Next(Stack),
    Done,
    Fails,
}

// Word `i` of rule `r`, which has so many variables, against the node on top.
fn match_turn(
    pack: &[u8],
    work: &[u32],
    c: Catalog,
    r: usize,
    vars: usize,
    stack: &mut [u32],
    values: &mut [u32],
    s: Stack,
    i: usize,
) -> Turn
    requires { Asked pack.now work.now c r vars stack.old values.old s i }
    ensures { Turned pack.now work.now c r stack.old stack.new values.old values.new s i result }
{
    let Some((n, rest)) = s.pop(stack) else {
        return Turn::Done;
    };
    let w = rule_word(pack, work, c, r, vars, i);
    if Prefix::VAR <= w {
        if bind(values, (w - Prefix::VAR) as usize, Ground(n)) {
            return Turn::Next(rest);
        }
        return Turn::Fails;
    }
    if node_head(pack, work, c, Ground(n)) != w {
        return Turn::Fails;
    }
    Turn::Next(push_arguments(pack, work, c, stack, rest, Ground(n)))
}

// Whether rule `r` matches the nodes on the stack, its premises in their order and then its conclusion. What the stack and the values'
// words hold then is left open.
pub fn rule_matches(
    pack: &[u8],
    work: &[u32],
    c: Catalog,
    r: usize,
    stack: &mut [u32],
    values: &mut [u32],
    s: Stack,
) -> bool
    requires { (H : Held pack.now work.now c) × Ready H.pack r stack.old s × (length values.old ≡ most_variables) }
    ensures { OfHeld pack.now work.now c (λ P. Ready P r stack.old s → result ≡ matched (match_words P (rule_words (rule_of P r)) (stacked 0 s.len stack.old) [])) }
{
    let vars = rule_vars(pack, work, c, r);
    values[0..vars].fill(0);
    let mut left = s;
    let mut i: usize = 0;
    loop {
        match match_turn(pack, work, c, r, vars, stack, values, left, i) {
            Turn::Next(next) => {
                left = next;
                i += 1;
            }
            Turn::Done => {
                return true;
            }
            Turn::Fails => {
                return false;
            }
        }
    }
}
