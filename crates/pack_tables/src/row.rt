// Rows of words in a record's body, four bytes each.
ghost use Rattle.std.specs.Prelude.{◌≡◌, ◌+◌, ◌*◌, ◌≤◌, ltb, length, drop};
ghost use Rattle.definition.specs.Test.{all};
ghost use Rattle.definition.specs.Little.{le};
ghost use Rattle.definition.specs.Theory.{words};

use crate::field::Field;
use buffer::little::u32_at;

// Word `i` of the row that starts at `at`.
pub fn word(body: &[u8], at: usize, i: usize) -> u32
    requires { at + 4 * i + 4 ≤ length body.now }
    ensures { result ≡ le 4 body.now (at + 4 * i) }
{
    u32_at(body, at + Field::WORD * i)
}

// Whether each of the `n` words from `at` on is below `bound`.
pub fn all_below(body: &[u8], at: usize, n: usize, bound: usize) -> bool
    requires { at + 4 * n ≤ length body.now }
    ensures { result ≡ all (λ w. ltb w bound) (words n (drop at body.now)) }
{
    for i in 0..n {
        if bound <= word(body, at, i) as usize {
            return false;
        }
    }
    true
}
