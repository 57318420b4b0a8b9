// Names of the pack put behind a text in a lent buffer; a number that is no symbol's or sort's has none.
ghost use Rattle.std.specs.Prelude.{◌≡◌, [], eqb, get_or};
ghost use Rattle.definition.specs.Pack.{prop, symbol_of};
ghost use Rattle.pack_read.specs.Says.{Readable};
ghost use Rattle.text_write.specs.Source.{OfRead};
ghost use Rattle.text_write.specs.Written.{Adds};

use crate::put::put_bytes;
use base::id::Ground;
use pack_read::name::{sort_name, symbol_name};
use pack_read::symbol::symbol_output;
use pack_tables::catalog::Catalog;

// The name of symbol `h`.
pub fn put_symbol(
    pack: &[u8],
    work: &[u32],
    text: &mut [u8],
    c: Catalog,
    at: usize,
    h: u32,
) -> usize
    requires { Readable pack.now work.now c }
    ensures { OfRead pack.now work.now c (λ P. Adds text.old text.new at (symbol_of P h).name result) }
{
    let i = h as usize;
    if c.count(work, Catalog::SYMBOLS) <= i {
        return at;
    }
    put_bytes(text, at, symbol_name(pack, work, c, i))
}

// The name of sort `s`.
pub fn put_sort(pack: &[u8], work: &[u32], text: &mut [u8], c: Catalog, at: usize, s: u32) -> usize
    requires { Readable pack.now work.now c }
    ensures { OfRead pack.now work.now c (λ P. Adds text.old text.new at (get_or P.sorts s []) result) }
{
    let i = s as usize;
    if c.count(work, Catalog::SORTS) <= i {
        return at;
    }
    put_bytes(text, at, sort_name(pack, work, c, i))
}

// Whether symbol `h` is a predicate.
pub fn is_predicate(pack: &[u8], work: &[u32], c: Catalog, h: u32) -> bool
    requires { Readable pack.now work.now c }
    ensures { OfRead pack.now work.now c (λ P. result ≡ eqb (symbol_of P h).output prop) }
{
    let i = h as usize;
    if c.count(work, Catalog::SYMBOLS) <= i {
        return false;
    }
    symbol_output(pack, work, c, i) == Ground::PROP
}
