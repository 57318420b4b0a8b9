// Numbers of two and four bytes, lowest byte first.
ghost use Rattle.std.specs.Prelude.{◌≡◌, ◌+◌, ◌<◌, ◌≤◌, length};
ghost use Rattle.definition.specs.Little.{le};

// A byte as a number of four.
fn wide(b: u8) -> u32
    ensures { (result ≡ b) × (result < 256) }
{
    b as u32
}

// The two bytes at `i` as a number.
pub fn u16_at(s: &[u8], i: usize) -> u32
    requires { i + 2 ≤ length s.now }
    ensures { (result ≡ le 2 s.now i) × (result < 65536) }
{
    let low = wide(s[i]);
    let high = wide(s[i + 1]);
    low + high * 256
}

// The four bytes at `i` as a number.
pub fn u32_at(s: &[u8], i: usize) -> u32
    requires { i + 4 ≤ length s.now }
    ensures { result ≡ le 4 s.now i }
{
    let low = u16_at(s, i);
    let high = u16_at(s, i + 2);
    low + high * 65536
}
