// A rule's terms in prefix order, read with a stack of frames: a symbol whose arguments are still to come, and the next of them.
ghost use Rattle.std.specs.Prelude.{◌+◌, ◌*◌, ◌<◌, ◌≤◌, length};
ghost use Rattle.pack_tables.specs.Catalog.{records_of};
ghost use Rattle.pack_read.specs.Says.{Readable};
ghost use Rattle.pack_reader.specs.Reading.{Stacked, Wants, Fitting, Descended};
ghost use Rattle.pack_reader.specs.TermsTurns.{Reached, Turned};
ghost use Rattle.pack_reader.specs.TermsRun.{TermsRead};
ghost use Rattle.definition.specs.Pack.{most_words, most_premises};
ghost use Rattle.definition.specs.Theory.{variable};

use crate::taken::Fault;
use base::id::{Ground, Prefix};
use base::limit::Limit;
use base::stack::Frame;
use buffer::little::u32_at;
use pack_read::symbol::{symbol_arity, symbol_input, symbol_output};
use pack_tables::catalog::Catalog;
use pack_tables::field::Field;
use pack_tables::row::word;

// How far the reading is: the next word's place in the body, how many words were read, how many frames there are, and how many
// judgments are still to be read.
#[derive(Clone, Copy)]
pub struct Point {
    pub at: usize,
    pub read: usize,
    pub frames: usize,
    pub left: usize,
}

// The sort that is wanted next, and the point without it; none where no term is wanted any more.
fn next_sort(
    pack: &[u8],
    work: &[u32],
    c: Catalog,
    frames: &mut [u32],
    p: Point,
) -> Option<(u32, Point)>
    requires { Readable pack.now work.now c × Stacked pack.now (records_of work.now c) frames.old p.frames }
    ensures { Wants pack.now (records_of work.now c) frames.old frames.new p result }
{
    let n = p.frames;
    if n == 0 {
        let left = p.left;
        if left == 0 {
            return None;
        }
        return Some((
            Ground::PROP,
            Point {
                at: p.at,
                read: p.read,
                frames: 0,
                left: left - 1,
            },
        ));
    }
    let h = frames[Frame::WORDS * (n - 1)] as usize;
    let i = frames[Frame::WORDS * (n - 1) + Frame::TAKEN] as usize;
    let s = symbol_input(pack, work, c, h, i);
    let arity = symbol_arity(pack, work, c, h);
    if arity <= i + 1 {
        return Some((
            s,
            Point {
                at: p.at,
                read: p.read,
                frames: n - 1,
                left: p.left,
            },
        ));
    }
    frames[Frame::WORDS * (n - 1) + Frame::TAKEN] = i as u32 + 1;
    Some((s, p))
}

// Whether the word `w` may stand where a term of sort `s` is wanted.
fn fits_at(pack: &[u8], work: &[u32], c: Catalog, body: &[u8], vars: usize, s: u32, w: u32) -> bool
    requires { Readable pack.now work.now c × (4 + 4 * vars ≤ length body.now) }
    ensures { Fitting pack.now (records_of work.now c) body.now vars s w result }
{
    if Prefix::VAR <= w {
        let v = (w - Prefix::VAR) as usize;
        if vars <= v {
            return false;
        }
        return word(body, Field::RULE_SORTS, v) == s;
    }
    let h = w as usize;
    if c.count(work, Catalog::SYMBOLS) <= h {
        return false;
    }
    symbol_output(pack, work, c, h) == s
}

// The frames behind the word `w`: a symbol with arguments is one more.
fn descend(pack: &[u8], work: &[u32], c: Catalog, frames: &mut [u32], p: Point, w: u32) -> Point
    requires { Readable pack.now work.now c × Stacked pack.now (records_of work.now c) frames.old p.frames × (p.frames < most_words) × (w < variable → w < length (records_of work.now c 1)) }
    ensures { Descended pack.now (records_of work.now c) frames.old frames.new p w result }
{
    if Prefix::VAR <= w {
        return p;
    }
    let h = w as usize;
    if symbol_arity(pack, work, c, h) == 0 {
        return p;
    }
    let n = p.frames;
    frames[Frame::WORDS * n] = w;
    frames[Frame::WORDS * n + Frame::TAKEN] = 0;
    Point {
        at: p.at,
        read: p.read,
        frames: n + 1,
        left: p.left,
    }
}

// A word of the terms: the point behind it, or none where no term is wanted any more.
fn read_word(
    pack: &[u8],
    work: &[u32],
    c: Catalog,
    body: &[u8],
    vars: usize,
    frames: &mut [u32],
    p: Point,
) -> Result<Option<Point>, Fault>
    requires { Readable pack.now work.now c × Reached pack.now (records_of work.now c) body.now vars frames.old p }
    ensures { Turned pack.now (records_of work.now c) body.now vars frames.old frames.new p result }
{
    let Some((s, q)) = next_sort(pack, work, c, frames, p) else {
        return Ok(None);
    };
    let at = q.at;
    if body.len() - at < 4 {
        return Err(Fault::Bad);
    }
    let read = q.read;
    if Limit::WORDS <= read {
        return Err(Fault::Over);
    }
    let w = u32_at(body, at);
    if !fits_at(pack, work, c, body, vars, s, w) {
        return Err(Fault::Bad);
    }
    let behind = Point {
        at: at + Field::WORD,
        read: read + 1,
        frames: q.frames,
        left: q.left,
    };
    Ok(Some(descend(pack, work, c, frames, behind, w)))
}

// The premises and the conclusion of a rule: the place in the body behind them.
pub fn read_terms(
    pack: &[u8],
    work: &[u32],
    c: Catalog,
    body: &[u8],
    vars: usize,
    premises: usize,
) -> Result<usize, Fault>
    requires { Readable pack.now work.now c × (4 + 4 * vars ≤ length body.now) × (premises ≤ most_premises) }
    ensures { TermsRead pack.now (records_of work.now c) body.now vars premises result }
{
    let mut frames = [0u32; Frame::WORDS * Limit::WORDS];
    let mut p = Point {
        at: Field::RULE_SORTS + Field::WORD * vars,
        read: 0,
        frames: 0,
        left: premises + 1,
    };
    while let Some(q) = read_word(pack, work, c, body, vars, &mut frames, p)? {
        p = q;
    }
    Ok(p.at)
}
