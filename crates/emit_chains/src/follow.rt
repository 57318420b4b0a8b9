// A chain followed: its first number, and the one behind a number.
ghost use Rattle.std.specs.Prelude.{◌≡◌, ◌<◌, ◌≤◌, length};
ghost use Rattle.emit_chains.specs.Places.{Within};
ghost use Rattle.emit_chains.specs.Follow.{number_in, most_words, FirstOf, NextOf};

use crate::chain::Chains;
use base::limit::Limit;

// The number that a word of a chain names. As many as rules can be, and symbols, stand for none.
fn number_in(word: u32) -> u32
    ensures { result ≡ number_in word }
{
    if word == 0 {
        return Limit::RULES as u32;
    }
    word - 1
}

// The first number of the chain of `key`, or none.
pub fn first_of(work: &[u32], chains: Chains, key: usize) -> u32
    requires { Within work.now chains × (length work.now ≤ most_words) × (key < chains.keys) }
    ensures { FirstOf work.now chains key result }
{
    let at = chains.first + key;
    number_in(work[at])
}

// The number behind `i` in its chain, or none.
pub fn next_of(work: &[u32], chains: Chains, i: u32) -> u32
    requires { Within work.now chains × (length work.now ≤ most_words) × (i < chains.items) }
    ensures { NextOf work.now chains i result }
{
    let at = chains.next + i as usize;
    number_in(work[at])
}
