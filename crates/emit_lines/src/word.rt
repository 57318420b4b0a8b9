// The words of a line, and symbols over them.
ghost use Rattle.std.specs.Prelude.{◌∷◌, map};
ghost use Rattle.emission.specs.Render.{over_words, word_text};
ghost use Rattle.emission.specs.Text.{blanked};
ghost use Rattle.pack_read.specs.Says.{Readable};
ghost use Rattle.emit_lines.specs.Words.{word_in, Puts};

use crate::variable::{put_definition, put_variable};
use pack_tables::catalog::Catalog;
use text_write::name::put_symbol;
use text_write::put::put_byte;

// A word of a line as one number: a constant by its symbol, a definition, or a variable, where 0 is L.
#[derive(Clone, Copy)]
pub struct Word(pub u32);

impl Word {
    // From here on a word is a definition, with the number that is above this one.
    pub const DEFINED: u32 = 1073741824;
    // From here on a variable.
    pub const VARIABLE: u32 = 2147483648;
}

// What lines are written by: the pack's tables, and L's name as its number of underscores.
#[derive(Clone, Copy)]
pub struct Hand {
    pub catalog: Catalog,
    pub name: u32,
}

// A word.
pub fn put_word(pack: &[u8], work: &[u32], text: &mut [u8], s: Hand, at: usize, w: Word) -> usize
    requires { Readable pack.now work.now s.catalog }
    ensures { Puts pack.now work.now text.old text.new s at (λ P L. word_text P L (word_in w.0)) result }
{
    if w.0 < Word::DEFINED {
        return put_symbol(pack, work, text, s.catalog, at, w.0);
    }
    if w.0 < Word::VARIABLE {
        return put_definition(text, at, w.0 - Word::DEFINED);
    }
    put_variable(text, at, s.name, w.0 - Word::VARIABLE)
}

// A word with its blank.
fn put_blanked_word(
    pack: &[u8],
    work: &[u32],
    text: &mut [u8],
    s: Hand,
    at: usize,
    w: Word,
) -> usize
    requires { Readable pack.now work.now s.catalog }
    ensures { Puts pack.now work.now text.old text.new s at (λ P L. 32 ∷ word_text P L (word_in w.0)) result }
{
    let from = put_byte(text, at, b' ');
    put_word(pack, work, text, s, from, w)
}

// Words, a blank ahead of each.
pub fn put_words(
    pack: &[u8],
    work: &[u32],
    text: &mut [u8],
    s: Hand,
    at: usize,
    words: &[u32],
) -> usize
    requires { Readable pack.now work.now s.catalog }
    ensures { Puts pack.now work.now text.old text.new s at (λ P L. blanked (map (word_text P L) (map word_in words.now))) result }
{
    let mut end = at;
    for &w in words {
        end = put_blanked_word(pack, work, text, s, end, Word(w));
    }
    end
}

// Symbol `h` over words, in brackets.
pub fn put_over(
    pack: &[u8],
    work: &[u32],
    text: &mut [u8],
    s: Hand,
    at: usize,
    h: u32,
    words: &[u32],
) -> usize
    requires { Readable pack.now work.now s.catalog }
    ensures { Puts pack.now work.now text.old text.new s at (λ P L. over_words P L h (map word_in words.now)) result }
{
    let bracket = put_byte(text, at, b'(');
    let symbol = put_symbol(pack, work, text, s.catalog, bracket, h);
    let list = put_words(pack, work, text, s, symbol, words);
    put_byte(text, list, b')')
}
