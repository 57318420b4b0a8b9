// The cases of an induct line. In a slice each case is its last line's number, its number of variables, and these.
ghost use Rattle.std.specs.Prelude.{◌++◌, map, ◌<◌, length, drop};
ghost use Rattle.emission.specs.Name.{name_with};
ghost use Rattle.emission.specs.Render.{case_text};
ghost use Rattle.emission.specs.Text.{joined};
ghost use Rattle.text_write.specs.Written.{Adds};
ghost use Rattle.emit_lines.specs.Side.{gap};
ghost use Rattle.emit_lines.specs.Cases.{case_in, cases_in};
ghost use Rattle.emit_lines.specs.Cased.{Ends, Starts};

use crate::list::{put_gap, put_variables};
use text_write::put::{put_byte, put_number};

// Where a case starts.
#[derive(Clone, Copy)]
pub struct Case(pub usize);

impl Case {
    // Behind its start: how many variables it has.
    pub const MANY: usize = 1;
    // And the first of them.
    pub const VARIABLES: usize = 2;
}

// A case by its last line's number and its variables.
pub fn put_case(text: &mut [u8], at: usize, u: u32, last: u32, variables: &[u32]) -> usize
    ensures { Adds text.old text.new at (case_text (name_with u) (record { last = last; variables = variables.now })) result }
{
    let bracket = put_byte(text, at, b'(');
    let number = put_number(text, bracket, last as u64);
    let list = put_variables(text, number, u, variables);
    put_byte(text, list, b')')
}

// Where the case that starts at `i` ends.
fn case_end(cases: &[u32], i: usize) -> usize
    requires { i < length cases.now }
    ensures { Ends cases.now i result }
{
    let many = i + Case::MANY;
    let all = cases.len();
    if all <= many {
        return all;
    }
    let n = cases[many] as usize;
    let left = all - i - Case::VARIABLES;
    if left < n {
        return all;
    }
    i + Case::VARIABLES + n
}

// Where its variables start: at its end, if it has none.
fn variables_start(i: usize, end: usize) -> usize
    requires { i < end }
    ensures { Starts i end result }
{
    if end - i < Case::VARIABLES {
        return end;
    }
    i + Case::VARIABLES
}

// The case that starts at `i`, with the blank ahead of it.
fn put_case_at(text: &mut [u8], at: usize, u: u32, cases: &[u32], i: usize) -> usize
    requires { i < length cases.now }
    ensures { Adds text.old text.new at (gap i ++ case_text (name_with u) (case_in (drop i cases.now))) result }
{
    let to = case_end(cases, i);
    let from = variables_start(i, to);
    let blank = put_gap(text, at, i);
    put_case(text, blank, u, cases[i], &cases[from..to])
}

// Cases, with a blank between each two.
pub fn put_cases(text: &mut [u8], at: usize, u: u32, cases: &[u32]) -> usize
    ensures { Adds text.old text.new at (joined (map (case_text (name_with u)) (cases_in cases.now))) result }
{
    let mut end = at;
    let mut i: usize = 0;
    while i < cases.len() {
        end = put_case_at(text, end, u, cases, i);
        i = case_end(cases, i);
    }
    end
}
