// One node as text: a variable's name, a bare constant, or a symbol behind its bracket.
ghost use Rattle.text_write.specs.Source.{OfSource, nodes_of};
ghost use Rattle.text_write.specs.Nodes.{Nodes, Applied, IsBare, WritesNode};

use crate::name::{is_predicate, put_symbol};
use crate::put::{put_byte, put_variable};
use crate::source::{Source, argument_of, arity_of, head_of};
use base::id::Pattern;

// Where a node's text ends, with which it is shown; or where it ends behind the symbol of an open bracket.
#[derive(Clone, Copy)]
pub enum Shown {
    Whole(usize),
    Open(usize),
}

// Whether node `x`, an application of `h`, has no brackets: a constant.
fn is_bare(pack: &[u8], work: &[u32], words: &[u32], s: Source, x: u32, h: u32) -> bool
    requires { Nodes pack.now work.now words.now s x }
    ensures { OfSource pack.now work.now s (λ P. IsBare P (nodes_of P words.now s) x h result) }
{
    if arity_of(pack, work, words, s, x) != 0 {
        return false;
    }
    !is_predicate(pack, work, s.catalog, h)
}

// The text of node `x`, an application of `h`, as far as it has no arguments in it.
fn write_applied(
    pack: &[u8],
    work: &[u32],
    words: &[u32],
    text: &mut [u8],
    s: Source,
    at: usize,
    x: u32,
    h: u32,
) -> Shown
    requires { Applied pack.now work.now words.now s x h }
    ensures { OfSource pack.now work.now s (λ P. WritesNode P (nodes_of P words.now s) text.old text.new at x result) }
{
    if is_bare(pack, work, words, s, x, h) {
        return Shown::Whole(put_symbol(pack, work, text, s.catalog, at, h));
    }
    let open = put_byte(text, at, b'(');
    Shown::Open(put_symbol(pack, work, text, s.catalog, open, h))
}

// The text of node `x`, as far as it has no arguments in it.
pub fn write_node(
    pack: &[u8],
    work: &[u32],
    words: &[u32],
    text: &mut [u8],
    s: Source,
    at: usize,
    x: u32,
) -> Shown
    requires { Nodes pack.now work.now words.now s x }
    ensures { OfSource pack.now work.now s (λ P. WritesNode P (nodes_of P words.now s) text.old text.new at x result) }
{
    let h = head_of(pack, work, words, s, x);
    if h == Pattern::VAR {
        let k = argument_of(pack, work, words, s, x, 0);
        return Shown::Whole(put_variable(text, at, k));
    }
    write_applied(pack, work, words, text, s, at, x, h)
}
