// Whether two parts hold the same words.
ghost use Rattle.std.specs.Prelude.{◌≡◌};
ghost use Rattle.definition.specs.Test.{same};

// The same words in the same order. A loop, since keys are a few words long, and the library's `==` makes a call wherever the first words
// are the same.
pub fn same_words(a: &[u32], b: &[u32]) -> bool
    ensures { result ≡ same a.now b.now }
{
    if a.len() != b.len() {
        return false;
    }
    for i in 0..a.len() {
        if a[i] != b[i] {
            return false;
        }
    }
    true
}
