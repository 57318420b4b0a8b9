// The rules of a predicate, one behind the other.
ghost use Rattle.std.specs.Prelude.{◌<◌};
ghost use Rattle.emit_chains.specs.Follow.{FirstOf, NextOf};
ghost use Rattle.emit_state.specs.Places.{rules_of, Laid};
ghost use Rattle.emit_search.specs.Rules.{head_in, Headed};

use base::id::Pattern;
use emit_chains::follow::{first_of, next_of};
use emit_state::places::Places;
use store::nodes::Store;

// The first rule that concludes the predicate of judgment `j`, or none.
pub fn first_rule(work: &[u32], words: &[u32], l: Places, st: Store, j: u32) -> u32
    requires { Laid work.now l × Headed work.now words.now l st j }
    ensures { FirstOf work.now (rules_of l) (head_in words.now st j) result }
{
    let from = l.index;
    let to = l.index_end();
    let head = st.head(&work[from..to], words, Pattern(j)) as usize;
    first_of(work, l.rules(), head)
}

// The next rule behind rule `r` with its predicate, or none.
pub fn next_rule(work: &[u32], l: Places, r: u32) -> u32
    requires { Laid work.now l × (r < l.hand.catalog.cap) }
    ensures { NextOf work.now (rules_of l) r result }
{
    next_of(work, l.rules(), r)
}
