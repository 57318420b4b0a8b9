// A stack of words in a part of a lent buffer.
ghost use Rattle.std.specs.Prelude.{◌≡◌, ◌+◌, ◌<◌, ◌≤◌, ◌∷◌, length, set};
ghost use Rattle.base.specs.Stack.{stacked, Took};

// Where the stack's first word stands, and how many there are.
#[derive(Clone, Copy)]
pub struct Stack {
    pub at: usize,
    pub len: usize,
}

// What a walk puts on its stack, or a worklist in its list: two words, of which the second says how many arguments were taken, or is the
// other of a pair.
#[derive(Clone, Copy)]
pub struct Frame(pub usize);

impl Frame {
    pub const WORDS: usize = 2;

    pub const TAKEN: usize = 1;

    pub const SECOND: usize = 1;
    // The frame above it.
    pub const NEXT_TAKEN: usize = 3;
}

impl Stack {
    // The stack with `v` on it.
    pub fn push(self, words: &mut [u32], v: u32) -> Stack
        requires { self.at + self.len < length words.old }
        ensures stack { (result.at ≡ self.at) × (result.len ≡ self.len + 1) × (stacked result.at result.len words.new ≡ v ∷ stacked self.at self.len words.old) }
        ensures frame { words.new ≡ set words.old (self.at + self.len) v }
    {
        let i = self.at + self.len;
        words[i] = v;
        Stack {
            at: self.at,
            len: self.len + 1,
        }
    }

    // The last word and the stack without it; none if it is empty.
    pub fn pop(self, words: &[u32]) -> Option<(u32, Stack)>
        requires { self.at + self.len ≤ length words.now }
        ensures { Took (stacked self.at self.len words.now) self.at words.now result }
    {
        let n = self.len;
        if n == 0 {
            return None;
        }
        let i = self.at + (n - 1);
        Some((
            words[i],
            Stack {
                at: self.at,
                len: n - 1,
            },
        ))
    }
}
