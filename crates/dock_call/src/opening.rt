// The pack of a call read, behind its lengths.
ghost use Rattle.std.specs.Prelude.{◌≡◌, length};
ghost use Rattle.pack_reader.specs.Parsed.{Room};
ghost use Rattle.dock_call.specs.Opening.{Takes, Opens};

use crate::lent::{Lent, test_lengths};
use definition::Refusal;
use pack_reader::read::read_pack;

// The pack read into work, or a part of it, that has room for the tables. Behind a refusal what work holds is left open.
pub fn take_pack(pack: &[u8], work: &mut [u32]) -> Result<(), Refusal>
    requires { Room pack.now work.old }
    ensures { Takes pack.now work.new result }
{
    read_pack(pack, work)
}

// The lengths tested, then the pack read into work. Behind a refusal what work holds is left open.
pub fn open_pack(l: Lent, pack: &[u8], work: &mut [u32]) -> Result<(), Refusal>
    requires { (l.pack ≡ length pack.now) × (l.work ≡ length work.old) }
    ensures { Opens l pack.now work.new result }
{
    test_lengths(l)?;
    take_pack(pack, work)
}
