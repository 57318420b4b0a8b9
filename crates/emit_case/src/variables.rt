// The variables of a case: one for each input of its constructor.
ghost use Rattle.std.specs.Prelude.{◌≡◌, length};
ghost use Rattle.definition.specs.Pack.{most_arity};
ghost use Rattle.emit_state.specs.Holding.{lends};
ghost use Rattle.emit_case.specs.Asked.{AskedFor};
ghost use Rattle.emit_case.specs.Variables.{variable_run, name_run, SortGiven, Unnamed, Constructor, Makes, MakesVariables, Filtering, Filters};

use crate::intern::intern;
use base::id::Pattern;
use definition::{Buffer, Refusal};
use emit_lines::line::put_var_line;
use emit_maps::maps::Maps;
use emit_maps::trail::enter;
use emit_state::places::Places;
use emit_state::standing::Standing;
use pack_read::symbol::{symbol_arity, symbol_input};

// The numbers of case variables' patterns: "case variable k is 2^31 - 1 + k".
#[derive(Clone, Copy)]
pub struct Case(pub u32);

impl Case {
    pub const FIRST: u32 = 2147483647;
}

// Pattern `v` is the next case variable: its line, and its name. Refused where the text is short.
fn name_variable(
    pack: &[u8],
    work: &mut [u32],
    words: &[u32],
    proof: &mut [u8],
    l: Places,
    m: Standing,
    v: u32,
    sort: u32,
) -> Result<(Standing, u32), Refusal>
    requires { AskedFor (lends pack.now work.old words.now proof.old) l m (Unnamed v sort) }
    ensures { Makes (lends pack.now work.old words.now proof.old) (lends pack.now work.new words.now proof.new) l m (Unnamed v sort) (λ w. name_run w.setting v sort) result }
{
    let k = m.variables;
    let hand = l.hand;
    let end = put_var_line(pack, work, proof, hand, m.text, k + 1, sort);
    if proof.len() < end {
        return Err(Refusal::Short(Buffer::TEXT));
    }
    let maps = l.maps();
    let trail = enter(work, maps, Maps::NAMES, v, k, m.trail);
    Ok((
        Standing {
            text: end,
            variables: k + 1,
            trail,
            ..m
        },
        v,
    ))
}

// A new case variable of a sort: its pattern, then its line. Refused where a buffer is short.
fn case_variable(
    pack: &[u8],
    work: &mut [u32],
    words: &mut [u32],
    proof: &mut [u8],
    l: Places,
    m: Standing,
    sort: u32,
) -> Result<(Standing, u32), Refusal>
    requires { AskedFor (lends pack.now work.old words.old proof.old) l m (SortGiven sort) }
    ensures { Makes (lends pack.now work.old words.old proof.old) (lends pack.now work.new words.new proof.new) l m (SortGiven sort) (λ w. variable_run w.setting sort) result }
{
    let number = Case::FIRST + m.variables;
    let (t, v) = intern(work, words, l, m, &[Pattern::VAR, number, sort])?;
    name_variable(pack, work, words, proof, l, t, v, sort)
}

// The variables of constructor `c`, one for each of its inputs, in `vs`, and how many there are; refused where a buffer is short.
pub fn case_variables(
    pack: &[u8],
    work: &mut [u32],
    words: &mut [u32],
    proof: &mut [u8],
    l: Places,
    m: Standing,
    c: u32,
    vs: &mut [u32],
) -> Result<(Standing, usize), Refusal>
    requires { AskedFor (lends pack.now work.old words.old proof.old) l m (Constructor c) × (length vs.old ≡ most_arity) }
    ensures { MakesVariables (lends pack.now work.old words.old proof.old) (lends pack.now work.new words.new proof.new) l m c vs.new result }
{
    let catalog = l.hand.catalog;
    let n = symbol_arity(pack, work, catalog, c as usize);
    let mut t = m;
    for i in 0..n {
        let sort = symbol_input(pack, work, catalog, c as usize, i);
        let (u, v) = case_variable(pack, work, words, proof, l, t, sort)?;
        t = u;
        vs[i] = v;
    }
    Ok((t, n))
}

// Those of the variables `vs` of constructor `c` that have a sort, in `rs`, and how many they are.
pub fn recursive(
    pack: &[u8],
    work: &[u32],
    l: Places,
    sort: u32,
    c: u32,
    vs: &[u32],
    rs: &mut [u32],
) -> usize
    requires { Filtering pack.now work.now l c vs.now rs.old }
    ensures { Filters pack.now work.now l sort c vs.now rs.new result }
{
    let catalog = l.hand.catalog;
    let mut many: usize = 0;
    for (i, &v) in vs.iter().enumerate() {
        if symbol_input(pack, work, catalog, c as usize, i) == sort {
            rs[many] = v;
            many += 1;
        }
    }
    many
}
