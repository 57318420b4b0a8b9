// Rules: what each says in the parsed pack.
ghost use Rattle.std.specs.Prelude.{◌≡◌, ◌+◌, ◌<◌, length, get_or};
ghost use Rattle.definition.specs.Pack.{Terms, rule_of};
ghost use Rattle.definition.specs.Certificate.{count};
ghost use Rattle.definition.specs.Theory.{variable};
ghost use Rattle.definition.proofs.Laws.Prefix.{terms_words};
ghost use Rattle.pack_tables.specs.Catalog.{records_of};
ghost use Rattle.pack_read.specs.Reads.{rule_words};
ghost use Rattle.pack_read.specs.Says.{Readable, OfPack, WordOfRule};
ghost use Rattle.pack_read.specs.Held.{Held, OfHeld};
ghost use Rattle.pack_read.specs.Clause.{Spelt, SpeltAll, Behind};

use crate::body::{body_half, body_word};
use crate::symbol::symbol_arity;
use base::id::Prefix;
use pack_tables::catalog::Catalog;
use pack_tables::field::Field;

// How many variables rule `r` has.
pub fn rule_vars(pack: &[u8], work: &[u32], c: Catalog, r: usize) -> usize
    requires { Readable pack.now work.now c × (r < length (records_of work.now c 2)) }
    ensures { OfPack pack.now work.now c (λ P. length (rule_of P r).vars) result }
{
    body_half(pack, work, c, Catalog::RULES, r, 0) as usize
}

// How many premises it has.
pub fn rule_premises(pack: &[u8], work: &[u32], c: Catalog, r: usize) -> usize
    requires { Readable pack.now work.now c × (r < length (records_of work.now c 2)) }
    ensures { OfPack pack.now work.now c (λ P. count (rule_of P r).premises) result }
{
    body_half(pack, work, c, Catalog::RULES, r, Field::RULE_PREMISES) as usize
}

// The sort of its variable `k`.
pub fn rule_var(pack: &[u8], work: &[u32], c: Catalog, r: usize, k: usize) -> u32
    requires { (R : Readable pack.now work.now c) × (r < length (records_of work.now c 2)) × (k < length (rule_of R.pack r).vars) }
    ensures { OfPack pack.now work.now c (λ P. get_or (rule_of P r).vars k 0) result }
{
    body_word(
        pack,
        work,
        c,
        Catalog::RULES,
        r,
        Field::RULE_SORTS + Field::WORD * k,
    )
}

// Its prefix word `i`, behind so many variables.
pub fn rule_word(pack: &[u8], work: &[u32], c: Catalog, r: usize, vars: usize, i: usize) -> u32
    requires { (R : Readable pack.now work.now c) × (r < length (records_of work.now c 2)) × (vars ≡ length (rule_of R.pack r).vars) × (i < length (rule_words (rule_of R.pack r))) }
    ensures { WordOfRule pack.now work.now c r i result }
{
    body_word(
        pack,
        work,
        c,
        Catalog::RULES,
        r,
        Field::RULE_SORTS + Field::WORD * vars + Field::WORD * i,
    )
}

// How many terms follow the prefix word `w`: as many as the symbol has inputs, none behind a variable.
fn terms_behind(pack: &[u8], work: &[u32], c: Catalog, w: u32) -> usize
    requires { (H : Held pack.now work.now c) × (w < variable → w < length H.pack.symbols) }
    ensures { OfHeld pack.now work.now c (λ P. Behind P w result) }
{
    if w < Prefix::VAR {
        symbol_arity(pack, work, c, w as usize)
    } else {
        0
    }
}

// The first word behind `n` terms of rule `r`, which has so many variables, from word `from` on.
pub fn pass_terms(
    pack: &[u8],
    work: &[u32],
    c: Catalog,
    r: usize,
    vars: usize,
    from: usize,
    n: usize,
) -> usize
    requires { (H : Held pack.now work.now c) × SpeltAll H.pack r vars from n }
    ensures { OfHeld pack.now work.now c (λ P. (ts : Terms) → Spelt P r vars from ts → count ts ≡ n → result ≡ from + length (terms_words ts)) }
{
    let mut left = n;
    let mut i = from;
    while 0 < left {
        let w = rule_word(pack, work, c, r, vars, i);
        left = left - 1 + terms_behind(pack, work, c, w);
        i += 1;
    }
    i
}
