// The lines of the proof text. A line's own number is given; that it fits the lines before it is for the caller.
ghost use Rattle.std.specs.Prelude.{◌≡◌, map, suc};
ghost use Rattle.emission.specs.Line.{var_line, def_line, hyp_line, step_line_of, induct_line, result_line};
ghost use Rattle.emission.specs.Render.{var_text};
ghost use Rattle.pack_read.specs.Says.{Readable};
ghost use Rattle.text_write.specs.Written.{Adds};
ghost use Rattle.emit_lines.specs.Words.{word_in, judgment_in, Puts};
ghost use Rattle.emit_lines.specs.Cases.{cases_in};
ghost use Rattle.emit_lines.specs.Lines.{numbered, PutsLine};

use crate::case::put_cases;
use crate::list::put_numbers;
use crate::name::{put_goal, put_rule};
use crate::variable::{put_definition, put_name, put_variable};
use crate::word::{Hand, put_over};
use text_write::name::put_sort;
use text_write::put::{put_byte, put_bytes, put_number};

// What a line with a number starts with: bytes, the number, a blank.
fn put_numbered(text: &mut [u8], at: usize, bytes: &[u8], n: u32) -> usize
    ensures { Adds text.old text.new at (numbered bytes.now n) result }
{
    let kind = put_bytes(text, at, bytes);
    let number = put_number(text, kind, n as u64);
    put_byte(text, number, b' ')
}

// Variable `k` with its sort: in the goal text L, which is 0, in the proof text a case variable.
pub fn put_var_line(
    pack: &[u8],
    work: &[u32],
    text: &mut [u8],
    s: Hand,
    at: usize,
    k: u32,
    sort: u32,
) -> usize
    requires { Readable pack.now work.now s.catalog }
    ensures text { Puts pack.now work.now text.old text.new s at (λ P L. var_text P L k sort) result }
    ensures line { PutsLine pack.now work.now text.old text.new s at (λ t. suc t.variables ≡ k) (var_line sort) result }
{
    let kind = put_bytes(text, at, b"(var ");
    let name = put_variable(text, kind, s.name, k);
    let blank = put_byte(text, name, b' ');
    let of = put_sort(pack, work, text, s.catalog, blank, sort);
    put_bytes(text, of, b")\n")
}

// Definition `n`: a symbol over words.
pub fn put_def_line(
    pack: &[u8],
    work: &[u32],
    text: &mut [u8],
    s: Hand,
    at: usize,
    n: u32,
    head: u32,
    words: &[u32],
) -> usize
    requires { Readable pack.now work.now s.catalog }
    ensures { PutsLine pack.now work.now text.old text.new s at (λ t. t.definitions ≡ n) (def_line head (map word_in words.now)) result }
{
    let kind = put_bytes(text, at, b"(def ");
    let name = put_definition(text, kind, n);
    let blank = put_byte(text, name, b' ');
    let over = put_over(pack, work, text, s, blank, head, words);
    put_bytes(text, over, b")\n")
}

// Line `n`, a judgment supposed.
pub fn put_hyp_line(
    pack: &[u8],
    work: &[u32],
    text: &mut [u8],
    s: Hand,
    at: usize,
    n: u32,
    predicate: u32,
    words: &[u32],
) -> usize
    requires { Readable pack.now work.now s.catalog }
    ensures { PutsLine pack.now work.now text.old text.new s at (λ t. t.steps ≡ n) (hyp_line (judgment_in predicate words.now)) result }
{
    let number = put_numbered(text, at, b"(hyp ", n);
    let judgment = put_over(pack, work, text, s, number, predicate, words);
    put_bytes(text, judgment, b")\n")
}

// Line `n`, a judgment by a rule from the lines `refs`.
pub fn put_step_line(
    pack: &[u8],
    work: &[u32],
    text: &mut [u8],
    s: Hand,
    at: usize,
    n: u32,
    rule: u32,
    refs: &[u32],
    predicate: u32,
    words: &[u32],
) -> usize
    requires { Readable pack.now work.now s.catalog }
    ensures { PutsLine pack.now work.now text.old text.new s at (λ t. t.steps ≡ n) (step_line_of rule refs.now (judgment_in predicate words.now)) result }
{
    let number = put_numbered(text, at, b"(step ", n);
    let name = put_rule(pack, work, text, s.catalog, number, rule);
    let bracket = put_bytes(text, name, b" (");
    let list = put_numbers(text, bracket, refs);
    let close = put_bytes(text, list, b") ");
    let judgment = put_over(pack, work, text, s, close, predicate, words);
    put_bytes(text, judgment, b")\n")
}

// Line `n`, a judgment by induction on L with a case for each constructor.
pub fn put_induct_line(
    pack: &[u8],
    work: &[u32],
    text: &mut [u8],
    s: Hand,
    at: usize,
    n: u32,
    predicate: u32,
    words: &[u32],
    cases: &[u32],
) -> usize
    requires { Readable pack.now work.now s.catalog }
    ensures { PutsLine pack.now work.now text.old text.new s at (λ t. t.steps ≡ n) (induct_line (judgment_in predicate words.now) (cases_in cases.now)) result }
{
    let number = put_numbered(text, at, b"(induct ", n);
    let name = put_name(text, number, s.name);
    let blank = put_byte(text, name, b' ');
    let judgment = put_over(pack, work, text, s, blank, predicate, words);
    let bracket = put_bytes(text, judgment, b" (");
    let list = put_cases(text, bracket, s.name, cases);
    put_bytes(text, list, b"))\n")
}

// The step of a goal.
pub fn put_result_line(
    pack: &[u8],
    work: &[u32],
    text: &mut [u8],
    s: Hand,
    at: usize,
    goal: u32,
    step: u32,
) -> usize
    requires { Readable pack.now work.now s.catalog }
    ensures { PutsLine pack.now work.now text.old text.new s at (λ t. Unit {0}) (result_line goal step) result }
{
    let kind = put_bytes(text, at, b"(result ");
    let name = put_goal(pack, work, text, s.catalog, kind, goal);
    let blank = put_byte(text, name, b' ');
    let number = put_number(text, blank, step as u64);
    put_bytes(text, number, b")\n")
}
