// A record's body, read where it stands in the pack.
ghost use Rattle.std.specs.Prelude.{◌≡◌, ◌+◌, ◌<◌, ◌≤◌, length};
ghost use Rattle.definition.specs.Little.{le};
ghost use Rattle.pack_tables.specs.Catalog.{records_of, Cataloged};
ghost use Rattle.pack_read.specs.Body.{body_of};

use buffer::little::{u16_at, u32_at};
use pack_tables::catalog::Catalog;
use pack_tables::header::Header;

// How long the body of record `i` of a kind is.
pub fn body_len(pack: &[u8], work: &[u32], c: Catalog, kind: usize, i: usize) -> usize
    requires { Cataloged pack.now work.now c × (kind < 9) × (i < length (records_of work.now c kind)) }
    ensures { result ≡ length (body_of pack.now (records_of work.now c kind) i) }
{
    let at = c.place(pack, work, kind, i);
    u32_at(pack, at) as usize
}

// The two bytes at `off` of it.
pub fn body_half(pack: &[u8], work: &[u32], c: Catalog, kind: usize, i: usize, off: usize) -> u32
    requires { Cataloged pack.now work.now c × (kind < 9) × (i < length (records_of work.now c kind)) × (off + 2 ≤ length (body_of pack.now (records_of work.now c kind) i)) }
    ensures { result ≡ le 2 (body_of pack.now (records_of work.now c kind) i) off }
{
    let at = c.place(pack, work, kind, i);
    u16_at(pack, at + Header::SIZE + off)
}

// The four bytes at `off` of it.
pub fn body_word(pack: &[u8], work: &[u32], c: Catalog, kind: usize, i: usize, off: usize) -> u32
    requires { Cataloged pack.now work.now c × (kind < 9) × (i < length (records_of work.now c kind)) × (off + 4 ≤ length (body_of pack.now (records_of work.now c kind) i)) }
    ensures { result ≡ le 4 (body_of pack.now (records_of work.now c kind) i) off }
{
    let at = c.place(pack, work, kind, i);
    u32_at(pack, at + Header::SIZE + off)
}
