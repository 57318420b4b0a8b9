// What class building has at hand between two classes, and what making a class comes to.
ghost use Rattle.std.specs.Prelude.{◌≡◌};
ghost use Rattle.class_premises.specs.Buffers.{onward};

use crate::layout::Layout;
use class_keys::classes::Keying;
use memo::memo::Memo;
use pack_tables::catalog::Catalog;
use store::nodes::Store;

// What class building has at hand between two classes: where the pack's tables, the keys and its own words stand in work, the store of
// all patterns, the copies' memo, and up to where the class buffer is filled.
#[derive(Clone, Copy)]
pub struct Building {
    pub catalog: Catalog,
    pub keying: Keying,
    pub layout: Layout,
    pub store: Store,
    pub memo: Memo,
    pub fill: usize,
}

// What figures count of a class, and of all together: variables, those of them that are flexible, fixed ones, entries and renamings.
#[derive(Clone, Copy)]
pub struct Counted {
    pub vars: usize,
    pub flex: usize,
    pub fixed: usize,
    pub entries: usize,
    pub renamings: usize,
}

impl Counted {
    // Of no class, and of a cut one.
    pub const NONE: Counted = Counted {
        vars: 0,
        flex: 0,
        fixed: 0,
        entries: 0,
        renamings: 0,
    };
}

// The same places with another store and memo, filled further.
pub fn go_on(s: Building, store: Store, memo: Memo, fill: usize) -> Building
    ensures { result ≡ onward s store memo fill }
{
    Building {
        store,
        memo,
        fill,
        ..s
    }
}
