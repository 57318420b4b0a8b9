// A pattern that a search makes.
ghost use Rattle.std.specs.Prelude.{◌<◌, length};
ghost use Rattle.emit_case.specs.Interning.{AskedNode, Interns};

use definition::{Buffer, Refusal};
use emit_state::places::Places;
use emit_state::standing::Standing;

// The pattern with a key, its head and its arguments, and the state that has it; refused where the pattern words are short.
pub fn intern(
    work: &mut [u32],
    words: &mut [u32],
    l: Places,
    m: Standing,
    key: &[u32],
) -> Result<(Standing, u32), Refusal>
    requires { AskedNode work.old words.old l m × (0 < length key.now) }
    ensures { Interns work.old work.new words.old words.new l m key.now result }
{
    let from = l.index;
    let to = l.index_end();
    let Some((p, st)) = m.store.intern(&mut work[from..to], words, key) else {
        return Err(Refusal::Short(Buffer::PATTERN));
    };
    Ok((m.with_store(st), p.0))
}
