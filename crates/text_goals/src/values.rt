// "a line a variable, as `?v0 : Nat 1 (s z)`: number, sort, flex mark, value".
ghost use Rattle.std.specs.Prelude.{◌<◌};
ghost use Rattle.text_goals.specs.Form.{Lined};
ghost use Rattle.text_goals.specs.Lines.{Kinds, PutsKind, WritesLine, WritesVariable, WritesVariables};

use crate::form::{Form, on_ground};
use base::id::Ground;
use class_premises::row::{Row, row_variables};
use memo::part::get;
use pack_read::node::node_sort;
use text_write::name::put_sort;
use text_write::put::{put_byte, put_bytes, put_number, put_variable};
use text_write::term::write_term;

// Variable `k` up to its value, ground node `n`.
fn put_kind(
    pack: &[u8],
    work: &[u32],
    class: &[u32],
    words: &[u32],
    text: &mut [u8],
    f: Form,
    at: usize,
    k: usize,
    n: Ground,
) -> usize
    requires { Kinds pack.now work.now class.now words.now f k n.0 }
    ensures { PutsKind pack.now work.now class.now text.old text.new f at k n.0 result }
{
    let c = f.patterns.catalog;
    let name = put_variable(text, at, k as u32);
    let colon = put_bytes(text, name, b" : ");
    let sort = put_sort(pack, work, text, c, colon, node_sort(pack, work, c, n));
    let blank = put_byte(text, sort, b' ');
    let mark = put_number(text, blank, class[f.row + Row::MARKS + k] as u64);
    put_byte(text, mark, b' ')
}

// The line of variable `k`, whose value is ground node `n`.
fn write_line(
    pack: &[u8],
    work: &mut [u32],
    class: &[u32],
    words: &[u32],
    text: &mut [u8],
    f: Form,
    at: usize,
    k: usize,
    n: Ground,
) -> usize
    requires { Kinds pack.now work.old class.now words.now f k n.0 }
    ensures { WritesLine pack.now work.old work.new class.now words.now text.old text.new f at k n.0 result }
{
    let kind = put_kind(pack, work, class, words, text, f, at, k, n);
    let ground = on_ground(f.patterns);
    let value = write_term(
        pack, work, words, text, ground, f.stack, kind, f.budget, n.0,
    );
    put_byte(text, value, b'\n')
}

// The line of variable `k`, if the conclusion has it.
fn write_variable(
    pack: &[u8],
    work: &mut [u32],
    class: &[u32],
    words: &[u32],
    text: &mut [u8],
    f: Form,
    at: usize,
    k: usize,
) -> usize
    requires { (L : Lined pack.now work.old class.now words.now f) × (k < L.many) }
    ensures { WritesVariable pack.now work.old work.new class.now words.now text.old text.new f at k result }
{
    let from = f.values;
    let to = f.stack;
    match get(work, from, to, f.memo, k) {
        Some(n) => write_line(pack, work, class, words, text, f, at, k, Ground(n)),
        None => at,
    }
}

// "Variables ascend": a line for each that the conclusion has.
pub fn write_variables(
    pack: &[u8],
    work: &mut [u32],
    class: &[u32],
    words: &[u32],
    text: &mut [u8],
    f: Form,
    at: usize,
) -> usize
    requires { Lined pack.now work.old class.now words.now f }
    ensures { WritesVariables pack.now work.old work.new class.now words.now text.old text.new f at result }
{
    let n = row_variables(class, f.row);
    let mut end = at;
    for k in 0..n {
        end = write_variable(pack, work, class, words, text, f, end, k);
    }
    end
}
