// A map keyed by dense numbers that clears in constant time: two words a key, a stamp and a value, which counts where the stamp is the memo's.
ghost use Rattle.std.specs.Prelude.{◌≡◌, ◌/◌, ◌<◌, length, get_or, set, replicate};
ghost use Rattle.std.proofs.Math.Option.{none, some};
ghost use Rattle.memo.specs.Recall.{recall, Remembers, known};

#[derive(Clone, Copy)]
pub struct Memo {
    pub stamp: u32,
}

impl Memo {
    // So many words a key: a stamp and a value.
    pub const ENTRY: usize = 2;

    const VALUE: usize = 1;

    // The last stamp: behind it all words are cleared.
    pub const LAST: u32 = 4294967295;

    // A memo without entries, for as many keys as `table` has pairs of words.
    pub fn new(table: &mut [u32]) -> Memo
        ensures { Remembers table.new result × (recall table.new result ≡ replicate (length table.old / 2) none) }
    {
        table.fill(0);
        Memo { stamp: 1 }
    }

    // The memo without its entries. All stamps are spent once in 2^32 - 1 times, and only then the table is written.
    pub fn clear(self, table: &mut [u32]) -> Memo
        requires { Remembers table.old self }
        ensures { Remembers table.new result × (recall table.new result ≡ replicate (length (recall table.old self)) none) }
    {
        let stamp = self.stamp;
        if stamp == Memo::LAST {
            return Memo::new(table);
        }
        Memo { stamp: stamp + 1 }
    }

    // What it has for `k`, if it has something.
    pub fn get(self, table: &[u32], k: usize) -> Option<u32>
        requires { k < length (recall table.now self) }
        ensures { known result ≡ get_or (recall table.now self) k none }
    {
        let i = Memo::ENTRY * k;
        let stamp = table[i];
        if stamp == self.stamp {
            return Some(table[i + Memo::VALUE]);
        }
        None
    }

    // `v` for `k`.
    pub fn insert(self, table: &mut [u32], k: usize, v: u32)
        requires { Remembers table.old self × (k < length (recall table.old self)) }
        ensures { Remembers table.new self × (recall table.new self ≡ set (recall table.old self) k (some v)) }
    {
        let i = Memo::ENTRY * k;
        table[i] = self.stamp;
        table[i + Memo::VALUE] = v;
    }
}
