// One root read back whose arguments' roots were: a variable by its number or its ground value, an application over its arguments.
ghost use Rattle.term_readback.specs.Roots.{Variable, Any, Naming, Names, Valuing, Values, Applying, Applies};
ghost use Rattle.term_readback.specs.AtHand.{OpeningAt, GivesAt, NotesAt};

use crate::table::{Reading, Table, key_of, numbers, put_word, said, word_at};
use base::id::{Ground, Node, Pattern};
use base::limit::Limit;
use graph::graph::Graph;
use graph::places::{numbers_at, patterns_at, values_at};
use pack_tables::catalog::Catalog;
use store::nodes::Store;
use term_lift::intern::intern_key;
use term_lift::lift::{Lifted, lift};

// Variable `x` by the next number: its pattern, the store then, and how many variables are numbered; none where the words have no room.
fn read_number(
    work: &mut [u32],
    words: &mut [u32],
    cells: &[u32],
    l: Lifted,
    t: Table,
    st: Store,
    g: Graph,
    numbered: usize,
    x: Node,
) -> Option<(Pattern, Store, usize)>
    requires { Naming work.old words.old cells.now l t st g numbered x.0 }
    ensures { Names work.old words.old work.new words.new cells.now l t st g numbered x.0 result }
{
    let sort = g.sort(cells, &work[t.at..t.end], x);
    let key = [Pattern::VAR, numbered as u32, sort];
    let (p, more) = intern_key(work, words, l, st, &key)?;
    put_word(work, t, numbers_at(cells) + numbered, x.0);
    Some((p, more, numbered + 1))
}

// Variable `x` by its ground value; one without a value, which nothing asks for, by the first ground node. None where the words have no
// room.
fn read_value(
    pack: &[u8],
    work: &mut [u32],
    words: &mut [u32],
    cells: &[u32],
    c: Catalog,
    l: Lifted,
    t: Table,
    st: Store,
    numbered: usize,
    x: Node,
) -> Option<(Pattern, Store, usize)>
    requires { Valuing pack.now work.old words.old cells.now c l t st numbered x.0 }
    ensures { Values pack.now work.old words.old work.new words.new cells.now c l t st numbered x.0 result }
{
    let value = said(word_at(work, t, values_at(cells) + x.0 as usize));
    let (p, more) = lift(pack, work, words, c, l, st, Ground(value))?;
    Some((p, more, numbered))
}

// Variable `x`, which has no number; none where the words have no room.
fn read_variable(
    pack: &[u8],
    work: &mut [u32],
    words: &mut [u32],
    cells: &[u32],
    s: Reading,
    st: Store,
    numbered: usize,
    x: Node,
) -> Option<(Pattern, Store, usize)>
    requires { OpeningAt pack.now work.old words.old cells.now s st numbered x.0 (Variable x.0) }
    ensures { GivesAt pack.now work.old words.old work.new words.new cells.now s st numbered x.0 (Variable x.0) result }
{
    if numbers(work, cells, s.table, s.graph, x, s.everyone) {
        return read_number(
            work, words, cells, s.lifted, s.table, st, s.graph, numbered, x,
        );
    }
    read_value(
        pack, work, words, cells, s.catalog, s.lifted, s.table, st, numbered, x,
    )
}

// Application `x` over what its arguments' roots were read back as; none where the words have no room.
fn read_applied(
    work: &mut [u32],
    words: &mut [u32],
    cells: &[u32],
    l: Lifted,
    t: Table,
    st: Store,
    g: Graph,
    numbered: usize,
    x: Node,
) -> Option<(Pattern, Store, usize)>
    requires { Applying work.old words.old cells.now l t st g numbered x.0 }
    ensures { Applies work.old words.old work.new words.new cells.now l t st g numbered x.0 result }
{
    let mut key = [0; Limit::KEY];
    let k = key_of(work, cells, t, g, x, &mut key);
    let (p, more) = intern_key(work, words, l, st, &key[0..k])?;
    Some((p, more, numbered))
}

// Root `x`, whichever it is; none where the words have no room.
fn read_either(
    pack: &[u8],
    work: &mut [u32],
    words: &mut [u32],
    cells: &[u32],
    s: Reading,
    st: Store,
    numbered: usize,
    x: Node,
) -> Option<(Pattern, Store, usize)>
    requires { OpeningAt pack.now work.old words.old cells.now s st numbered x.0 Any }
    ensures { GivesAt pack.now work.old words.old work.new words.new cells.now s st numbered x.0 Any result }
{
    if s.graph.head(cells, &work[s.table.at..s.table.end], x) == Pattern::VAR {
        return read_variable(pack, work, words, cells, s, st, numbered, x);
    }
    read_applied(
        work, words, cells, s.lifted, s.table, st, s.graph, numbered, x,
    )
}

// Root `x` is read back and has its pattern's word from then on; none where the words have no room.
pub fn read_root(
    pack: &[u8],
    work: &mut [u32],
    words: &mut [u32],
    cells: &[u32],
    s: Reading,
    st: Store,
    numbered: usize,
    x: Node,
) -> Option<(Pattern, Store, usize)>
    requires { OpeningAt pack.now work.old words.old cells.now s st numbered x.0 Any }
    ensures { NotesAt pack.now work.old words.old work.new words.new cells.now s st numbered x.0 result }
{
    let (p, more, n) = read_either(pack, work, words, cells, s, st, numbered, x)?;
    put_word(work, s.table, patterns_at(cells) + x.0 as usize, p.0 + 1);
    Some((p, more, n))
}
