// Numbers as decimal text, written into a lent buffer.
ghost use Rattle.std.specs.Prelude.{◌≡◌, length};
ghost use Rattle.definition.specs.Decimal.{decimal};
ghost use Rattle.buffer.specs.Text.{Wrote, write};

// How many digits `n` has.
fn digits(n: u64) -> usize
    ensures { result ≡ length (decimal n) }
{
    let mut k = 1;
    let mut m = n;
    while 10 <= m {
        m /= 10;
        k += 1;
    }
    k
}

// Writes the digits of `n` at `at`: the place behind them; none, and nothing is written, where there is no room for all of them.
pub fn put_decimal(text: &mut [u8], at: usize, n: u64) -> Option<usize>
    ensures { ◌≡◌ {A = Wrote} (record { answer = result; text = text.new }) (write text.old at (decimal n)) }
{
    if text.len() < at {
        return None;
    }
    let k = digits(n);
    if text.len() - at < k {
        return None;
    }
    let end = at + k;
    let mut i = end - 1;
    let mut m = n;
    while 10 <= m {
        text[i] = b'0' + (m % 10) as u8;
        m /= 10;
        i -= 1;
    }
    text[i] = b'0' + m as u8;
    Some(end)
}
