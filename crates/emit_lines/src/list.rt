// Texts side by side, with blanks.
ghost use Rattle.std.specs.Prelude.{◌∷◌, ◌++◌, map};
ghost use Rattle.definition.specs.Decimal.{decimal};
ghost use Rattle.emission.specs.Name.{name_with};
ghost use Rattle.emission.specs.Render.{variable_text};
ghost use Rattle.emission.specs.Text.{blanked, joined};
ghost use Rattle.text_write.specs.Written.{Adds};
ghost use Rattle.emit_lines.specs.Side.{gap};

use crate::variable::put_variable;
use text_write::put::{put_byte, put_number};

// The blank ahead of what stands at place `i` of a list: the first has none.
pub fn put_gap(text: &mut [u8], at: usize, i: usize) -> usize
    ensures { Adds text.old text.new at (gap i) result }
{
    if i == 0 {
        return at;
    }
    put_byte(text, at, b' ')
}

// One of some numbers, `n` at place `i`.
fn put_listed(text: &mut [u8], at: usize, i: usize, n: u32) -> usize
    ensures { Adds text.old text.new at (gap i ++ decimal n) result }
{
    let from = put_gap(text, at, i);
    put_number(text, from, n as u64)
}

// Numbers, with a blank between each two.
pub fn put_numbers(text: &mut [u8], at: usize, numbers: &[u32]) -> usize
    ensures { Adds text.old text.new at (joined (map decimal numbers.now)) result }
{
    let mut end = at;
    for (i, &n) in numbers.iter().enumerate() {
        end = put_listed(text, end, i, n);
    }
    end
}

// One of some variables, variable `k` with its blank.
fn put_blanked_variable(text: &mut [u8], at: usize, u: u32, k: u32) -> usize
    ensures { Adds text.old text.new at (32 ∷ variable_text (name_with u) k) result }
{
    let from = put_byte(text, at, b' ');
    put_variable(text, from, u, k)
}

// Variables, a blank ahead of each.
pub fn put_variables(text: &mut [u8], at: usize, u: u32, variables: &[u32]) -> usize
    ensures { Adds text.old text.new at (blanked (map (variable_text (name_with u)) variables.now)) result }
{
    let mut end = at;
    for &k in variables {
        end = put_blanked_variable(text, end, u, k);
    }
    end
}
