// The interned store: pattern words in their final form in one slice, and in another, `index`, where each node starts and a probe
// table of the nodes. As many nodes fit as the words lent have room for.
ghost use Rattle.std.specs.Prelude.{◌≡◌, [], ◌+◌, ◌<◌, length, get_or};
ghost use Rattle.definition.specs.Pack.{no_node};
ghost use Rattle.definition.specs.Test.{same};
ghost use Rattle.base.specs.Probe.{Ran, taken};
ghost use Rattle.base.specs.Hash.{hash_of};
ghost use Rattle.store.specs.Words.{key_of};
ghost use Rattle.store.specs.Stored.{Stored, nodes, Counts, Spans, slots_in, Placed, Entered, Enough, Searching, Probed, Fits, Appended, Adding, Rebuilding, Added, Answer};

use base::copy::copy_cells;
use base::hash::hash;
use base::id::Pattern;
use base::same::same_words;

// How many nodes there are, how many words they take, and below what their hashes are.
#[derive(Clone, Copy)]
pub struct Store {
    pub len: usize,
    pub used: usize,
    pub hashes: usize,
}

// The first free slot from `h` on.
fn free_slot(slots: &[u32], h: usize) -> usize
    requires { h + taken slots.now < length slots.now }
    ensures { Ran slots.now h result × (get_or slots.now result 0 ≡ 0) }
{
    let mut s = h;
    while slots[s] != 0 {
        s += 1;
    }
    s
}

impl Store {
    // The index has so many words for each node that the words have room for, and one more: where it starts, and three slots.
    pub const INDEX: usize = 4;
    // A node's fewest words: how many arguments it has, and its head.
    pub const LEAST: usize = 2;
    // So many hashes a node, at the least; there are so many at first, and then so many times as many.
    const HASHES: usize = 2;

    const FIRST: usize = 512;

    const GROWTH: usize = 4;

    // A store without nodes; `index` has four words for each two of `words`, and one more.
    pub fn new(index: &mut [u32], words: &[u32]) -> Store
        requires { Enough index.old words.now }
        ensures { Stored index.new words.now result × (nodes words.now result ≡ []) }
    {
        let room = words.len() / Store::LEAST;
        let m = Store::FIRST.min(Store::HASHES * room + 1);
        let st = Store {
            len: 0,
            used: 0,
            hashes: m,
        };
        st.rebuild(index, words)
    }

    // How many nodes there are.
    pub fn len(self) -> usize
        ensures { Counts self result }
    {
        self.len
    }

    // How many words they take.
    pub fn used(self) -> usize
        ensures { Spans self result }
    {
        self.used
    }

    // The words of node `i`: its head and its arguments.
    fn key_at<'a>(self, index: &[u32], words: &'a [u32], i: usize) -> &'a [u32]
        requires { Placed index.now words.now self (nodes words.now self) × (i < length (nodes words.now self)) }
        ensures { result.now ≡ key_of (get_or (nodes words.now self) i no_node) }
    {
        let at = index[i] as usize;
        let end = at + Store::LEAST + words[at] as usize;
        &words[at + 1..end]
    }

    // A node: its head and its arguments.
    pub fn node<'a>(self, index: &[u32], words: &'a [u32], p: Pattern) -> &'a [u32]
        requires { Stored index.now words.now self × (p.0 < length (nodes words.now self)) }
        ensures { result.now ≡ key_of (get_or (nodes words.now self) p.0 no_node) }
    {
        self.key_at(index, words, p.0 as usize)
    }

    // A node's head.
    pub fn head(self, index: &[u32], words: &[u32], p: Pattern) -> u32
        requires { Stored index.now words.now self × (p.0 < length (nodes words.now self)) }
        ensures { result ≡ (get_or (nodes words.now self) p.0 no_node).head }
    {
        self.node(index, words, p)[0]
    }

    // How many arguments a node has.
    pub fn arity(self, index: &[u32], words: &[u32], p: Pattern) -> usize
        requires { Stored index.now words.now self × (p.0 < length (nodes words.now self)) }
        ensures { result ≡ length (get_or (nodes words.now self) p.0 no_node).args }
    {
        self.node(index, words, p).len() - 1
    }

    // A node's argument `k`.
    pub fn argument(self, index: &[u32], words: &[u32], p: Pattern, k: usize) -> u32
        requires { Stored index.now words.now self × (p.0 < length (nodes words.now self)) × (k < length (get_or (nodes words.now self) p.0 no_node).args) }
        ensures { result ≡ get_or (get_or (nodes words.now self) p.0 no_node).args k 0 }
    {
        self.node(index, words, p)[k + 1]
    }

    // Whether node `i` has this key.
    fn has(self, index: &[u32], words: &[u32], i: usize, key: &[u32]) -> bool
        requires { Placed index.now words.now self (nodes words.now self) × (i < length (nodes words.now self)) }
        ensures { result ≡ same (key_of (get_or (nodes words.now self) i no_node)) key.now }
    {
        same_words(self.key_at(index, words, i), key)
    }

    // The slot that holds the key (`Ok`), or the first free one from its hash on (`Err`).
    fn probe(
        self,
        slots: &[u32],
        index: &[u32],
        words: &[u32],
        h: usize,
        key: &[u32],
    ) -> Result<usize, usize>
        requires { Searching slots.now index.now words.now self h key.now }
        ensures { Probed slots.now (nodes words.now self) h key.now result }
    {
        let mut s = h;
        loop {
            let id = slots[s];
            if id == 0 {
                break Err(s);
            }
            if self.has(index, words, (id - 1) as usize, key) {
                break Ok(s);
            }
            s += 1;
        }
    }

    // The same in the whole index.
    fn search(self, index: &[u32], words: &[u32], key: &[u32]) -> Result<usize, usize>
        requires { Stored index.now words.now self × (0 < length key.now) }
        ensures { Probed (slots_in index.now words.now self.hashes) (nodes words.now self) (hash_of self.hashes key.now) key.now result }
    {
        let m = self.hashes;
        let h = hash(m, key);
        let room = words.len() / Store::LEAST;
        let end = room + (m + m / 2);
        self.probe(&index[room..end], index, words, h, key)
    }

    // The key's words behind the others, and where they start; the table is left as it was.
    fn append(self, index: &mut [u32], words: &mut [u32], key: &[u32]) -> Store
        requires { Fits index.old words.old self key.now }
        ensures { Appended index.old words.old index.new words.new self key.now result }
    {
        let at = self.used;
        let k = key.len();
        words[at] = (k - 1) as u32;
        copy_cells(key, &mut words[at + 1..at + 1 + k]);
        let n = self.len;
        index[n] = at as u32;
        Store {
            len: n + 1,
            used: at + 1 + k,
            ..self
        }
    }

    // Node `i` into the table.
    fn enter(self, index: &mut [u32], words: &[u32], i: usize)
        requires { Entered index.old words.now self (nodes words.now self) i × (i < length (nodes words.now self)) }
        ensures { Entered index.new words.now self (nodes words.now self) (i + 1) }
    {
        let m = self.hashes;
        let key = self.key_at(index, words, i);
        let h = hash(m, key);
        let room = words.len() / Store::LEAST;
        let s = free_slot(&index[room..room + (m + m / 2)], h);
        index[room + s] = i as u32 + 1;
    }

    // The table made anew from the words.
    fn rebuild(self, index: &mut [u32], words: &[u32]) -> Store
        requires { Rebuilding index.old words.now self (nodes words.now self) }
        ensures { (result ≡ self) × Stored index.new words.now self }
    {
        let m = self.hashes;
        let room = words.len() / Store::LEAST;
        index[room..room + (m + m / 2)].fill(0);
        for i in 0..self.len {
            self.enter(index, words, i);
        }
        self
    }

    // The key as a node more, in the free slot `s` or in a larger table.
    fn add(self, index: &mut [u32], words: &mut [u32], key: &[u32], s: usize) -> Store
        requires { Adding index.old words.old self key.now s }
        ensures { Added words.old index.new words.new self key.now result }
    {
        let m = self.hashes;
        let room = words.len() / Store::LEAST;
        let st = self.append(index, words, key);
        let n = st.len;
        if Store::HASHES * n <= m {
            index[room + s] = n as u32;
            return st;
        }
        let wide = (Store::GROWTH * m).min(Store::HASHES * room + 1);
        Store { hashes: wide, ..st }.rebuild(index, words)
    }

    // The number of the key's node, which is put behind the others if it is new, and the store that has it; none where it is new and the
    // words have no room.
    pub fn intern(
        self,
        index: &mut [u32],
        words: &mut [u32],
        key: &[u32],
    ) -> Option<(Pattern, Store)>
        requires { Stored index.old words.old self × (0 < length key.now) }
        ensures { Answer index.old words.old index.new words.new self key.now result }
    {
        match self.search(index, words, key) {
            Ok(s) => {
                let room = words.len() / Store::LEAST;
                Some((Pattern(index[room + s] - 1), self))
            }
            Err(s) => {
                if words.len() - self.used <= key.len() {
                    return None;
                }
                let st = self.add(index, words, key, s);
                Some((Pattern(self.len as u32), st))
            }
        }
    }
}
