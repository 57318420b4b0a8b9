// Whether each word of a list is below a number.
ghost use Rattle.std.specs.Prelude.{◌≡◌, ltb};
ghost use Rattle.definition.specs.Test.{all};

pub fn all_below(words: &[u32], n: usize) -> bool
    ensures { result ≡ all (λ w. ltb w n) words.now }
{
    for w in words {
        if n <= *w as usize {
            return false;
        }
    }
    true
}
