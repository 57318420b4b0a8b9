// From one record to the next.
ghost use Rattle.definition.specs.Parse.{take_record};
ghost use Rattle.pack_reader.specs.Taking.{Reading, Whole, behind};
ghost use Rattle.pack_reader.specs.Sound.{Sound};
ghost use Rattle.pack_reader.specs.Marks.{Marks, Advances};
ghost use Rattle.pack_reader.specs.Walk.{Meeting, Goes};

use crate::abstracted::take_abstract;
use crate::cut::take_cut;
use crate::goal::take_goal;
use crate::node::take_node;
use crate::result::take_result;
use crate::rule::take_rule;
use crate::sort::take_sort;
use crate::step::take_step;
use crate::symbol::take_symbol;
use crate::taken::Fault;
use pack_tables::catalog::Catalog;
use pack_tables::header::{Header, Kind};

// A record of any kind taken up, or its fault.
fn take_record(
    pack: &[u8],
    body: &[u8],
    work: &mut [u32],
    c: Catalog,
    at: usize,
    kind: u32,
) -> Result<(), Fault>
    requires { Reading pack.now work.old c at × Whole pack.now body.now at × Sound pack.now work.old c × Marks pack.now work.old c }
    ensures { Advances pack.now work.old work.new c (behind at body.now) (λ P. take_record P (record { kind = kind; body = body.now })) result }
{
    match kind {
        Kind::SORT => take_sort(pack, body, work, c, at),
        Kind::SYMBOL => take_symbol(pack, body, work, c, at),
        Kind::RULE => take_rule(pack, body, work, c, at),
        Kind::NODE => take_node(pack, body, work, c, at),
        Kind::STEP => take_step(pack, body, work, c, at),
        Kind::GOAL => take_goal(pack, body, work, c, at),
        Kind::RESULT => take_result(pack, body, work, c, at),
        Kind::CUT => take_cut(pack, body, work, c, at),
        _ => take_abstract(pack, body, work, c, at),
    }
}

// The record at `at`, which has this header, taken up: where its body ends, counted from `at`, and its kind. Where it is bad or over a
// limit, what work holds then is left open.
pub fn take_next(
    pack: &[u8],
    work: &mut [u32],
    c: Catalog,
    at: usize,
    header: Option<Header>,
) -> Result<(usize, u32), Fault>
    requires { Meeting pack.now work.old c at header }
    ensures { Goes pack.now work.old work.new c at result }
{
    let Some(Header { kind, end }) = header else {
        return Err(Fault::Bad);
    };
    let body = &pack[at + Header::SIZE..at + end];
    take_record(pack, body, work, c, at, kind)?;
    Ok((end, kind))
}
