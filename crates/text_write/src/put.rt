// Bytes and numbers put behind a text in a lent buffer. A text that is longer than its buffer has no end there, and what is put behind it
// is passed over; what stands behind the end is left open.
ghost use Rattle.std.specs.Prelude.{◌≡◌, [], ◌∷◌, ◌++◌, ◌+◌, ◌<◌, length};
ghost use Rattle.definition.specs.Decimal.{decimal};
ghost use Rattle.definition.specs.Shown.{ellipsis, variable_name};
ghost use Rattle.text_write.specs.Written.{Adds};

use base::copy::copy_cells;
use buffer::decimal::put_decimal;

// Where a text ends.
#[derive(Clone, Copy)]
pub struct Text(pub usize);

impl Text {
    // In place of an end: the text is longer than its buffer.
    pub const SHORT: usize = 18446744073709551615;
}

// One byte.
pub fn put_byte(text: &mut [u8], at: usize, b: u8) -> usize
    ensures byte { Adds text.old text.new at (b ∷ []) result }
    ensures on { at < length text.old → result ≡ at + 1 }
{
    if at < text.len() {
        text[at] = b;
        return at + 1;
    }
    Text::SHORT
}

// Bytes, all of them or, where there is no room for all, none.
pub fn put_bytes(text: &mut [u8], at: usize, bytes: &[u8]) -> usize
    ensures { Adds text.old text.new at bytes.now result }
{
    if text.len() < at || text.len() - at < bytes.len() {
        return Text::SHORT;
    }
    let end = at + bytes.len();
    copy_cells(bytes, &mut text[at..end]);
    end
}

// A number.
pub fn put_number(text: &mut [u8], at: usize, n: u64) -> usize
    ensures { Adds text.old text.new at (decimal n) result }
{
    match put_decimal(text, at, n) {
        Some(end) => end,
        None => Text::SHORT,
    }
}

// `…`, where a budget is spent.
pub fn put_ellipsis(text: &mut [u8], at: usize) -> usize
    ensures { Adds text.old text.new at ellipsis.bytes result }
{
    let first = put_byte(text, at, 226);
    let second = put_byte(text, first, 128);
    put_byte(text, second, 166)
}

// The name of variable `k`.
pub fn put_variable(text: &mut [u8], at: usize, k: u32) -> usize
    ensures { Adds text.old text.new at (variable_name k) result }
{
    let mark = put_byte(text, at, b'?');
    let letter = put_byte(text, mark, b'v');
    put_number(text, letter, k as u64)
}
