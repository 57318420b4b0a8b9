// The hash of a key, for probe tables.
ghost use Rattle.std.specs.Prelude.{◌≡◌, ℕ, ◌<◌, map};
ghost use Rattle.base.specs.Hash.{hash_of};

// What a key is made of: words or bytes, each a number below 2^32.
pub trait Cell: Copy {
    ghost number: { Self → ℕ };

    fn number(self) -> u64
        ensures { (result ≡ number self) × (result < 4294967296) };
}

impl Cell for u32 {
    ghost number = { λ x. x };

    fn number(self) -> u64 {
        u64::from(self)
    }
}

impl Cell for u8 {
    ghost number = { λ x. x };

    fn number(self) -> u64 {
        u64::from(self)
    }
}

// The hash of a key, below `m`.
pub fn hash<T: Cell>(m: usize, key: &[T]) -> usize
    requires { (0 < m) × (m < 4294967296) }
    ensures { (result ≡ hash_of m (map T.number key.now)) × (result < m) }
{
    let mut h: u64 = 0;
    for x in key {
        h = (h + x.number()) * 1711563921 % 4294967296;
    }
    (h * (m as u64) / 4294967296) as usize
}
