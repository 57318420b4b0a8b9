// The classes by how many steps they have.
ghost use Rattle.std.specs.Prelude.{◌+◌, ◌*◌, ◌≤◌, length};
ghost use Rattle.class_build.specs.Slots.{Wide, Adds, Sorts};

use class_keys::classes::{Keying, class_count};

// How many classes have up to 1 step, 2 to 9, 10 to 99, 100 or more.
#[derive(Clone, Copy)]
pub struct Slots {
    pub single: u64,
    pub few: u64,
    pub tens: u64,
    pub hundreds: u64,
}

// One class more, which has `n` steps.
fn add_class(s: Slots, n: usize) -> Slots
    requires { Wide s }
    ensures { Adds s n result }
{
    if n <= 1 {
        return Slots {
            single: s.single + 1,
            ..s
        };
    }
    if n <= 9 {
        return Slots {
            few: s.few + 1,
            ..s
        };
    }
    if n <= 99 {
        return Slots {
            tens: s.tens + 1,
            ..s
        };
    }
    Slots {
        hundreds: s.hundreds + 1,
        ..s
    }
}

// The slots of the first `n` classes.
pub fn histogram(work: &[u32], k: Keying, n: usize) -> Slots
    requires { k.at + 2 * k.cap + n ≤ length work.now }
    ensures { Sorts work.now k n result }
{
    let mut s = Slots {
        single: 0,
        few: 0,
        tens: 0,
        hundreds: 0,
    };
    for i in 0..n {
        s = add_class(s, class_count(work, k, i));
    }
    s
}
