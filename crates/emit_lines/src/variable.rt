// The names that lines give: L by its number of underscores, the variables after it, and definitions.
ghost use Rattle.emission.specs.Name.{name_with};
ghost use Rattle.emission.specs.Render.{definition_text, variable_text};
ghost use Rattle.text_write.specs.Written.{Adds};

use text_write::put::{put_byte, put_bytes, put_number};

// L with `u` underscores.
pub fn put_name(text: &mut [u8], at: usize, u: u32) -> usize
    ensures { Adds text.old text.new at (name_with u) result }
{
    let mut end = put_byte(text, at, b'L');
    for _i in 0..u {
        end = put_byte(text, end, b'_');
    }
    end
}

// Variable `k`: L itself, then L0, L1, and so on.
pub fn put_variable(text: &mut [u8], at: usize, u: u32, k: u32) -> usize
    ensures { Adds text.old text.new at (variable_text (name_with u) k) result }
{
    let name = put_name(text, at, u);
    if k == 0 {
        return name;
    }
    put_number(text, name, (k - 1) as u64)
}

// Definition `n`: ?d0, ?d1, and so on.
pub fn put_definition(text: &mut [u8], at: usize, n: u32) -> usize
    ensures { Adds text.old text.new at (definition_text n) result }
{
    let mark = put_bytes(text, at, b"?d");
    put_number(text, mark, n as u64)
}
