// What is left of a pack to be read.
ghost use Rattle.std.specs.Prelude.{◌≡◌, ◌≤◌, length, drop};
ghost use Rattle.pack_tables.specs.Header.{HeadsFirst};

use crate::header::{Header, header_of};

// The unread tail of a pack, and the kind of the record ahead of it.
#[derive(Clone, Copy)]
pub struct Unread<'a> {
    pub tail: &'a [u8],
    pub last: u32,
}

impl<'a> Unread<'a> {
    // This tail, behind a record of the kind `last`.
    pub fn new(tail: &'a [u8], last: u32) -> Unread<'a>
        ensures { (result.tail ≡ tail.entry) × (result.last ≡ last) }
    {
        Unread { tail, last }
    }

    // The first unread record's header, if it is whole.
    pub fn header(self) -> Option<Header>
        ensures { HeadsFirst self.entry.tail.now self.entry.last result }
    {
        header_of(self.tail, self.last)
    }

    // What is unread behind the first record, which ends at `end` and is of this kind.
    pub fn behind(self, end: usize, kind: u32) -> Unread<'a>
        requires { end ≤ length self.tail.now }
        ensures { (result.tail.now ≡ drop end self.entry.tail.now) × (result.last ≡ kind) }
    {
        Unread {
            tail: after(self.tail, end),
            last: kind,
        }
    }
}

// What stands behind the first `end` bytes.
fn after(tail: &[u8], end: usize) -> &[u8]
    requires { end ≤ length tail.now }
    ensures { result.now ≡ drop end tail.now }
{
    &tail[end..]
}
