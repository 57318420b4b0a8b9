// A definition: its line, its entry, its count.
ghost use Rattle.std.specs.Prelude.{◌≡◌, get_or};
ghost use Rattle.definition.specs.Pack.{no_node};
ghost use Rattle.emission.specs.Line.{def_line};
ghost use Rattle.store.specs.Stored.{nodes};
ghost use Rattle.emit_state.specs.Holding.{lends};
ghost use Rattle.emit_words.specs.Putting.{Placed, PutsOver};
ghost use Rattle.emit_words.specs.Defining.{Definable, Defines};

use crate::gather::collect;
use base::limit::Limit;
use emit_lines::line::put_def_line;
use emit_maps::maps::Maps;
use emit_maps::trail::enter;
use emit_state::places::Places;
use emit_state::standing::Standing;

// The line of the next definition: pattern `p` over its arguments' words.
fn put_definition(
    pack: &[u8],
    work: &[u32],
    words: &[u32],
    proof: &mut [u8],
    l: Places,
    m: Standing,
    p: u32,
) -> usize
    requires { Placed (lends pack.now work.now words.now proof.old) l m p }
    ensures { PutsOver pack.now work.now words.now proof.old proof.new l m p (λ t. t.definitions ≡ m.definitions) (λ ws. def_line (get_or (nodes words.now m.store) p no_node).head ws) result }
{
    let mut numbers = [0; Limit::ARITY];
    let said = collect(work, words, l, m, p, &mut numbers);
    put_def_line(
        pack,
        work,
        proof,
        l.hand,
        m.text,
        m.definitions,
        said.head,
        &numbers[0..said.many],
    )
}

// Pattern `p`, all of whose arguments have words, is defined; none where the text is short.
pub fn define(
    pack: &[u8],
    work: &mut [u32],
    words: &[u32],
    proof: &mut [u8],
    l: Places,
    m: Standing,
    p: u32,
) -> Option<Standing>
    requires { Definable (lends pack.now work.old words.now proof.old) l m p }
    ensures { Defines (lends pack.now work.old words.now proof.old) (lends pack.now work.new words.now proof.new) l m p result }
{
    let end = put_definition(pack, work, words, proof, l, m, p);
    if proof.len() < end {
        return None;
    }
    let n = m.definitions;
    let trail = enter(work, l.maps(), Maps::DEFS, p, n, m.trail);
    Some(Standing {
        text: end,
        definitions: n + 1,
        trail,
        ..m
    })
}
