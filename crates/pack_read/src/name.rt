// Names: the bytes at the end of a record's body.
ghost use Rattle.std.specs.Prelude.{◌≡◌, [], ◌<◌, length, get_or};
ghost use Rattle.definition.specs.Pack.{symbol_of, rule_of};
ghost use Rattle.definition.specs.Verdict.{no_goal, no_result};
ghost use Rattle.pack_tables.specs.Place.{no_place, key_at};
ghost use Rattle.pack_tables.specs.Catalog.{records_of, Cataloged};
ghost use Rattle.pack_read.specs.Says.{Readable, OfPack};

use pack_tables::catalog::Catalog;
use pack_tables::region::end_of;

// The key of record `i` of a kind: from where it starts to the record's end.
pub fn name_of<'a>(pack: &'a [u8], work: &[u32], c: Catalog, kind: usize, i: usize) -> &'a [u8]
    requires { Cataloged pack.now work.now c × (kind < 9) × (i < length (records_of work.now c kind)) }
    ensures { result.now ≡ key_at pack.now (get_or (records_of work.now c kind) i no_place) }
{
    let at = c.place(pack, work, kind, i);
    let from = c.key_place(pack, work, kind, i);
    let end = end_of(pack, at);
    &pack[from..end]
}

// The name of sort `i`.
pub fn sort_name<'a>(pack: &'a [u8], work: &[u32], c: Catalog, i: usize) -> &'a [u8]
    requires { Readable pack.now work.now c × (i < length (records_of work.now c 0)) }
    ensures { OfPack pack.now work.now c (λ P. get_or P.sorts i []) result.now }
{
    name_of(pack, work, c, Catalog::SORTS, i)
}

// The name of symbol `i`.
pub fn symbol_name<'a>(pack: &'a [u8], work: &[u32], c: Catalog, i: usize) -> &'a [u8]
    requires { Readable pack.now work.now c × (i < length (records_of work.now c 1)) }
    ensures { OfPack pack.now work.now c (λ P. (symbol_of P i).name) result.now }
{
    name_of(pack, work, c, Catalog::SYMBOLS, i)
}

// The name of rule `i`.
pub fn rule_name<'a>(pack: &'a [u8], work: &[u32], c: Catalog, i: usize) -> &'a [u8]
    requires { Readable pack.now work.now c × (i < length (records_of work.now c 2)) }
    ensures { OfPack pack.now work.now c (λ P. (rule_of P i).name) result.now }
{
    name_of(pack, work, c, Catalog::RULES, i)
}

// The name of goal `i`.
pub fn goal_name<'a>(pack: &'a [u8], work: &[u32], c: Catalog, i: usize) -> &'a [u8]
    requires { Readable pack.now work.now c × (i < length (records_of work.now c 5)) }
    ensures { OfPack pack.now work.now c (λ P. (get_or P.goals i no_goal).name) result.now }
{
    name_of(pack, work, c, Catalog::GOALS, i)
}

// The name of result `i`.
pub fn result_name<'a>(pack: &'a [u8], work: &[u32], c: Catalog, i: usize) -> &'a [u8]
    requires { Readable pack.now work.now c × (i < length (records_of work.now c 6)) }
    ensures { OfPack pack.now work.now c (λ P. (get_or P.results i no_result).name) result.now }
{
    name_of(pack, work, c, Catalog::RESULTS, i)
}
