// Memos that stand in a part of work.
ghost use Rattle.std.specs.Prelude.{◌≡◌, ◌≤◌, ◌<◌, length};
ghost use Rattle.memo.specs.Recall.{recall, Remembers, known};
ghost use Rattle.memo.specs.Lent.{lent, recall_at, Puts, Clears};

use crate::memo::Memo;

// A memo without entries between `from` and `to`, whatever stands there.
pub fn begin(work: &mut [u32], from: usize, to: usize) -> Memo
    requires { (from ≤ to) × (to ≤ length work.old) }
    ensures { Clears work.old work.new from to result }
{
    Memo::new(&mut work[from..to])
}

// The memo between `from` and `to` without its entries.
pub fn clear(work: &mut [u32], from: usize, to: usize, memo: Memo) -> Memo
    requires { (from ≤ to) × (to ≤ length work.old) × Remembers (lent from to work.old) memo }
    ensures { Clears work.old work.new from to result }
{
    memo.clear(&mut work[from..to])
}

// What the memo between `from` and `to` has for `k`, if it has something.
pub fn get(work: &[u32], from: usize, to: usize, memo: Memo, k: usize) -> Option<u32>
    requires { (from ≤ to) × (to ≤ length work.now) × (k < length (recall (lent from to work.now) memo)) }
    ensures { known result ≡ recall_at from to work.now memo k }
{
    memo.get(&work[from..to], k)
}

// `v` for `k` in the memo between `from` and `to`.
pub fn put(work: &mut [u32], from: usize, to: usize, memo: Memo, k: usize, v: u32)
    requires { (from ≤ to) × (to ≤ length work.old) × Remembers (lent from to work.old) memo × (k < length (recall (lent from to work.old) memo)) }
    ensures { Puts work.old work.new from to memo k v }
{
    memo.insert(&mut work[from..to], k, v);
}
