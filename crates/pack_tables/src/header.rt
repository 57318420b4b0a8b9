// The header in front of a record's body.
ghost use Rattle.pack_tables.specs.Header.{HeadsFirst};

use buffer::little::{u16_at, u32_at};

// A record's kind, and where its body ends, counted from the record's first byte.
#[derive(Clone, Copy)]
pub struct Header {
    pub kind: u32,
    pub end: usize,
}

impl Header {
    // The bytes of a header: four for the body's length, two for the kind.
    pub const SIZE: usize = 6;

    pub const KIND: usize = 4;
}

// Document 01's kinds of records, by their numbers.
#[derive(Clone, Copy)]
pub struct Kind(pub u32);

impl Kind {
    pub const SORT: u32 = 1;

    pub const SYMBOL: u32 = 2;

    pub const RULE: u32 = 3;

    pub const NODE: u32 = 4;

    pub const STEP: u32 = 5;

    pub const GOAL: u32 = 6;

    pub const RESULT: u32 = 7;

    pub const CUT: u32 = 8;

    pub const ABSTRACT: u32 = 9;
}

// The header at the start of a pack's tail, behind a record of the kind `last`; none where it is cut, of no kind, or out of order.
pub fn header_of(tail: &[u8], last: u32) -> Option<Header>
    ensures { HeadsFirst tail.now last result }
{
    if tail.len() < Header::SIZE {
        return None;
    }
    let size = u32_at(tail, 0) as usize;
    if tail.len() - Header::SIZE < size {
        return None;
    }
    let kind = u16_at(tail, Header::KIND);
    if kind < Kind::SORT {
        return None;
    }
    if Kind::ABSTRACT < kind {
        return None;
    }
    if kind < last {
        return None;
    }
    Some(Header {
        kind: kind,
        end: Header::SIZE + size,
    })
}
