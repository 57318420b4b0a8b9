// The copies' variables, noted in their order.
ghost use Rattle.std.specs.Prelude.{◌+◌, ◌<◌};
ghost use Rattle.class_premises.specs.Noted.{Noting, NotesOne, Room, Notes};

// A copy's variable, whose word at `from` says its node and one, is noted behind so many others; 0 is none. How many there are then.
fn note_copy(work: &mut [u32], from: usize, to: usize, noted: usize) -> usize
    requires { Noting work.old from to noted }
    ensures { NotesOne work.old work.new from to noted result }
{
    let word = work[from];
    if word == 0 {
        return noted;
    }
    work[to + noted] = word - 1;
    noted + 1
}

// The variables of a copy, which has `n` words from `from` on, are noted in a list at `to`, behind so many others. How many there are then.
pub fn note_copies(work: &mut [u32], from: usize, n: usize, to: usize, noted: usize) -> usize
    requires { Room work.old from n to noted }
    ensures { Notes work.old work.new from n to noted result }
{
    let mut on = noted;
    for k in 0..n {
        on = note_copy(work, from + k, to, on);
    }
    on
}
