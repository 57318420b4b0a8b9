// The words of the classes: the first step of each, and how many steps it has.
ghost use Rattle.std.specs.Prelude.{◌≡◌, ◌+◌, ◌*◌, ◌<◌, ◌≤◌, length};
ghost use Rattle.class_keys.specs.ClassWords.{first_in, count_in, slots_at, joined, begun};
ghost use Rattle.definition.specs.Store.{nothing};

// A class's number.
#[derive(Clone, Copy)]
pub struct Class(pub u32);

impl Class {
    // "2^32−1 if unneeded": the step has no class.
    pub const NONE: u32 = 4294967295;
}

// Where the keys have their words in work: for each ground node that a step has as its judgment the first such step; behind these
// words each class's first step; behind these how many steps it has; behind these the slots of a probe table of the classes' keys.
// There is room for `cap` nodes and as many steps.
#[derive(Clone, Copy)]
pub struct Keying {
    pub at: usize,
    pub cap: usize,
}

impl Keying {
    // Where the words stand, in so many times the room: the classes' counts, the slots, and the end but for one.

    pub const COUNTS: usize = 2;

    pub const SLOTS: usize = 3;

    pub const END: usize = 6;
    // So many hashes and slots a step, and one more.
    pub const HASHES: usize = 2;

    pub const PROBES: usize = 3;
    // A key's words ahead of its refs' classes: a mark and the rule.
    pub const REFS: usize = 2;
}

// How many classes there are, and how many needed steps.
#[derive(Clone, Copy)]
pub struct Counts {
    pub classes: usize,
    pub needed: usize,
}

// The first step of class `i`.
pub fn class_first(work: &[u32], k: Keying, i: usize) -> usize
    requires { k.at + k.cap + i < length work.now }
    ensures { result ≡ first_in work.now k i }
{
    let p = k.at + k.cap + i;
    work[p] as usize
}

// How many steps it has.
pub fn class_count(work: &[u32], k: Keying, i: usize) -> usize
    requires { k.at + 2 * k.cap + i < length work.now }
    ensures { result ≡ count_in work.now k i }
{
    let p = k.at + Keying::COUNTS * k.cap + i;
    work[p] as usize
}

// It has one step more.
pub fn join_class(work: &mut [u32], k: Keying, i: usize)
    requires { (k.at + 2 * k.cap + i < length work.old) × (count_in work.old k i < nothing) }
    ensures { work.new ≡ joined work.old k i }
{
    let p = k.at + Keying::COUNTS * k.cap + i;
    work[p] = work[p] + 1;
}

// Class `m` begins with step `s`, and slot `t` holds it.
pub fn begin_class(work: &mut [u32], k: Keying, m: usize, t: usize, s: usize)
    requires { (m ≤ k.cap) × (slots_at k + t < length work.old) × (m < nothing) × (s < 4294967296) }
    ensures { work.new ≡ begun work.old k m t s }
{
    let p = k.at + k.cap + m;
    work[p] = s as u32;
    let q = k.at + Keying::COUNTS * k.cap + m;
    work[q] = 1;
    let r = k.at + Keying::SLOTS * k.cap + t;
    work[r] = m as u32 + 1;
}
