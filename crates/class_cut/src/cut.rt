// A cut class made: its conclusion in the store, then its row.
ghost use Rattle.class_cut.specs.Making.{CuttingIn, CutsIn};

use crate::conclusion::cut_conclusion;
use crate::row::write_cut;
use class_premises::building::{Building, Counted, go_on};
use class_premises::row::Row;
use definition::{Buffer, Refusal};
use pack_read::symbol::symbol_arity;

// The cut class of predicate `p`, class `i`; figures count nothing of it. A refusal leaves open what all buffers but the pack hold then.
pub fn make_cut(
    pack: &[u8],
    work: &mut [u32],
    class: &mut [u32],
    words: &mut [u32],
    s: Building,
    i: usize,
    p: u32,
) -> Result<(Building, Counted), Refusal>
    requires { CuttingIn pack.now work.old class.old words.old s i p }
    ensures { CutsIn pack.now work.old class.old words.old work.new class.new words.new s i p result }
{
    let lifted = s.layout.lifting();
    let Some((q, more)) = cut_conclusion(pack, work, words, s.catalog, lifted, s.store, p) else {
        return Err(Refusal::Short(Buffer::PATTERN));
    };
    let n = symbol_arity(pack, work, s.catalog, p as usize);
    if class.len() - s.fill < Row::MARKS + n {
        return Err(Refusal::Short(Buffer::CLASS));
    }
    write_cut(work, class, s, i, q, n);
    Ok((
        go_on(s, more, s.memo, s.fill + Row::MARKS + n),
        Counted::NONE,
    ))
}
