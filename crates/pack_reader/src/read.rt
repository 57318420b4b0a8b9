// The whole pack.
ghost use Rattle.std.specs.Prelude.{◌≡◌, length};
ghost use Rattle.pack_reader.specs.Marks.{Beyond};
ghost use Rattle.pack_reader.specs.Walk.{Walking};
ghost use Rattle.pack_reader.specs.Parsed.{tables_of, Room, Parses};

use crate::next::take_next;
use definition::Refusal;
use pack_tables::catalog::Catalog;
use pack_tables::unread::Unread;

// Where the tables of a pack stand: from the start of work on, with room for a record each seven bytes.
pub fn tables(pack: &[u8]) -> Catalog
    ensures { result ≡ tables_of (length pack.now) }
{
    Catalog {
        at: 0,
        cap: pack.len() / 7 + 1,
    }
}

// No record yet, and no mark.
fn open_tables(pack: &[u8], work: &mut [u32]) -> Catalog
    requires { Room pack.now work.old }
    ensures { (result ≡ tables_of (length pack.now)) × Walking pack.now work.new (tables_of (length pack.now)) 0 0 × Beyond work.old work.new (tables_of (length pack.now)) }
{
    let cap = pack.len() / 7 + 1;
    let marks = Catalog::TABLES * (Catalog::RECORD * cap + Catalog::MORE);
    work[marks..marks + cap].fill(0);
    Catalog::new(work, 0, cap)
}

// The records from the first on: what is unread is carried from each to the next.
fn read_records(pack: &[u8], work: &mut [u32], c: Catalog) -> Result<(), Refusal>
    requires { (c ≡ tables_of (length pack.now)) × Walking pack.now work.old (tables_of (length pack.now)) 0 0 }
    ensures { Parses pack.now work.old work.new result }
{
    let mut unread = Unread::new(pack, 0);
    while 0 < unread.tail.len() {
        let at = pack.len() - unread.tail.len();
        match take_next(pack, work, c, at, unread.header()) {
            Ok((end, kind)) => {
                unread = unread.behind(end, kind);
            }
            Err(fault) => {
                return Err(fault.refusal(at));
            }
        }
    }
    Ok(())
}

// The pack read into the tables at the start of work, which then represent it; or the first bad record's refusal.
pub fn read_pack(pack: &[u8], work: &mut [u32]) -> Result<(), Refusal>
    requires { Room pack.now work.old }
    ensures { Parses pack.now work.old work.new result }
{
    let c = open_tables(pack, work);
    read_records(pack, work, c)
}
