// A rule's terms being built.
ghost use Rattle.std.specs.Prelude.{◌≡◌, ◌+◌, ◌<◌, ◌≤◌, length, set};
ghost use Rattle.emit_premises.specs.Frames.{frame_words, opening, opened, given, word_limit};

use base::limit::Limit;
use store::nodes::Store;

// What was made so far, and where: the open symbols stand on a stack, one behind the other.
#[derive(Clone, Copy)]
pub struct Building {
    // The patterns.
    pub store: Store,
    // Where the innermost open symbol's words start.
    pub base: usize,
    // Where they end, and the stack.
    pub top: usize,
    // The rule's next word.
    pub next: usize,
}

// The words of an open symbol: where the one around it starts, where the patterns of its terms end once all are there, its head, and these
// patterns.
#[derive(Clone, Copy)]
pub struct Opening(pub usize);

impl Opening {
    pub const END: usize = 1;

    pub const HEAD: usize = 2;

    pub const TERMS: usize = 3;
    // Of the stack: three for each word of a rule, and for the premises themselves.
    pub const STACK: usize = Opening::TERMS * Limit::WORDS + Opening::TERMS;
}

impl Building {
    // Symbol `h` is opened, which has so many terms.
    pub fn open(self, stack: &mut [u32], h: u32, arity: usize) -> Building
        requires { (self.top + frame_words ≤ length stack.old) × (self.base ≤ self.top) × (self.top + arity < word_limit) × (self.next < word_limit) }
        ensures state { result ≡ opened self }
        ensures words { stack.new ≡ opening stack.old self.base self.top h arity }
    {
        let top = self.top;
        let end = top + Opening::END;
        let head = top + Opening::HEAD;
        let terms = top + Opening::TERMS;
        stack[top] = self.base as u32;
        stack[end] = (terms + arity) as u32;
        stack[head] = h;
        Building {
            base: top,
            top: terms,
            next: self.next + 1,
            ..self
        }
    }

    // Pattern `p` is what the innermost open symbol's next term was built to, a word of the rule.
    pub fn give(self, stack: &mut [u32], p: u32) -> Building
        requires { (self.top < length stack.old) × (self.next < word_limit) }
        ensures state { result ≡ given self }
        ensures words { stack.new ≡ set stack.old self.top p }
    {
        stack[self.top] = p;
        Building {
            top: self.top + 1,
            next: self.next + 1,
            ..self
        }
    }
}
