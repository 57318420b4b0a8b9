// Names of sorts, symbols and rules.
ghost use Rattle.std.specs.Prelude.{◌≡◌};
ghost use Rattle.definition.specs.Theory.{name_byte, is_name};

use base::limit::Limit;

// A byte of a name: 33 to 126, no round bracket.
fn name_byte(b: u8) -> bool
    ensures { result ≡ name_byte b }
{
    if b < 33 {
        return false;
    }
    if 126 < b {
        return false;
    }
    if b == b'(' {
        return false;
    }
    b != b')'
}

// A name: 1 to 64 such bytes, no leading `?`.
pub fn is_name(name: &[u8]) -> bool
    ensures { result ≡ is_name name.now }
{
    if name.is_empty() {
        return false;
    }
    if Limit::NAME < name.len() {
        return false;
    }
    if name[0] == b'?' {
        return false;
    }
    name.iter().all(|&b| name_byte(b))
}
