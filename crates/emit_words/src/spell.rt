// The word that a pattern has already.
ghost use Rattle.std.specs.Prelude.{◌≡◌, get_or};
ghost use Rattle.definition.specs.Pack.{no_node};
ghost use Rattle.store.specs.Words.{key_of};
ghost use Rattle.store.specs.Stored.{nodes};
ghost use Rattle.emit_words.specs.Spelling.{Knows, Spelled, SpelledUnnamed};

use base::id::Pattern;
use emit_lines::word::Word;
use emit_maps::maps::{Maps, look};
use emit_state::places::Places;
use emit_state::standing::Standing;

// The head of pattern `p` and its arguments.
pub fn key_of<'a>(work: &[u32], words: &'a [u32], l: Places, m: Standing, p: u32) -> &'a [u32]
    requires { Knows work.now words.now l m p }
    ensures { result.now ≡ key_of (get_or (nodes words.now m.store) p no_node) }
{
    let a = l.index;
    let e = l.index_end();
    m.store.node(&work[a..e], words, Pattern(p))
}

// The word of a pattern that is no case variable: L's, a constant's, or its definition's; none if it is not defined.
fn word_unnamed(work: &[u32], words: &[u32], l: Places, m: Standing, p: u32) -> Option<u32>
    requires { Knows work.now words.now l m p }
    ensures { SpelledUnnamed work.now words.now l m p result }
{
    let key = key_of(work, words, l, m, p);
    if key[0] == Pattern::VAR {
        return Some(Word::VARIABLE);
    }
    if key.len() == 1 {
        return Some(key[0]);
    }
    let n = look(work, l.maps(), Maps::DEFS, p)?;
    Some(Word::DEFINED + n)
}

// The word of pattern `p`: a case variable's, asked for first, or what it has otherwise; none if it has no word.
pub fn word_of(work: &[u32], words: &[u32], l: Places, m: Standing, p: u32) -> Option<u32>
    requires { Knows work.now words.now l m p }
    ensures { Spelled work.now words.now l m p result }
{
    match look(work, l.maps(), Maps::NAMES, p) {
        Some(k) => Some(Word::VARIABLE + 1 + k),
        None => word_unnamed(work, words, l, m, p),
    }
}
