// Ground nodes.
ghost use Rattle.definition.specs.Certificate.{take_node};
ghost use Rattle.pack_reader.specs.Taking.{Reading, Whole, behind, Takes};
ghost use Rattle.pack_reader.specs.Sound.{Sound};
ghost use Rattle.pack_reader.specs.Node.{Asks, Fit};

use crate::taken::Fault;
use base::id::Ground;
use buffer::little::u32_at;
use pack_read::node::node_sort;
use pack_read::symbol::{symbol_arity, symbol_input};
use pack_tables::catalog::Catalog;
use pack_tables::field::Field;
use pack_tables::header::Header;
use pack_tables::region::Entered;
use pack_tables::row::word;

// Whether each argument is a node, of the sort that the head asks for.
fn arguments_fit(
    pack: &[u8],
    body: &[u8],
    work: &[u32],
    c: Catalog,
    head: usize,
    arity: usize,
) -> bool
    requires { Asks pack.now work.now body.now c head arity }
    ensures { Fit pack.now work.now body.now c head arity result }
{
    let nodes = c.count(work, Catalog::NODES);
    for i in 0..arity {
        let n = Ground(word(body, Field::NODE_ARGUMENTS, i));
        if nodes <= n.0 as usize {
            return false;
        }
        if node_sort(pack, work, c, n) != symbol_input(pack, work, c, head, i) {
            return false;
        }
    }
    true
}

// A node: its head, a symbol, and its arguments. Its body is its key.
pub fn take_node(
    pack: &[u8],
    body: &[u8],
    work: &mut [u32],
    c: Catalog,
    at: usize,
) -> Result<(), Fault>
    requires { Reading pack.now work.old c at × Whole pack.now body.now at × Sound pack.now work.old c }
    ensures { Takes pack.now work.old work.new c 3 (behind at body.now) (λ P. take_node P body.now) result }
{
    if body.len() < Field::NODE_ARGUMENTS {
        return Err(Fault::Bad);
    }
    let head = u32_at(body, 0) as usize;
    if c.count(work, Catalog::SYMBOLS) <= head {
        return Err(Fault::Bad);
    }
    let arity = symbol_arity(pack, work, c, head);
    if body.len() != Field::NODE_ARGUMENTS + Field::WORD * arity {
        return Err(Fault::Bad);
    }
    if !arguments_fit(pack, body, work, c, head, arity) {
        return Err(Fault::Bad);
    }
    match c.enter(pack, work, Catalog::NODES, at, at + Header::SIZE) {
        Entered::New => Ok(()),
        Entered::Old => Err(Fault::Bad),
    }
}
