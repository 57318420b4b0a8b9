// The lengths lent to a call.
ghost use Rattle.std.specs.Prelude.{◌≡◌};
ghost use Rattle.definition.specs.Answer.{lengths};
ghost use Rattle.dock_call.specs.Outcome.{refusal_of};
ghost use Rattle.dock_call.specs.Lengths.{lent_of};

use base::limit::Limit;
use definition::{Buffer, Refusal};

// The lent lengths, 0 for one not lent.
#[derive(Clone, Copy)]
pub struct Lent {
    pub pack: usize,
    pub class: usize,
    pub pattern: usize,
    pub graph: usize,
    pub work: usize,
    pub text: usize,
    pub goals: usize,
}

impl Lent {
    // "work below 16 × (pattern + graph + pack) + 1,024 words".
    pub const WORK_SHARE: usize = 16;

    pub const WORK_MORE: usize = 1024;
}

// The lengths tested, ahead of the pack.
pub fn test_lengths(l: Lent) -> Result<(), Refusal>
    ensures { refusal_of result ≡ lengths (lent_of l) }
{
    if Limit::CELLS < l.pack {
        return Err(Refusal::Limit(0));
    }
    if Limit::CELLS < l.class {
        return Err(Refusal::Limit(0));
    }
    if Limit::CELLS < l.pattern {
        return Err(Refusal::Limit(0));
    }
    if Limit::CELLS < l.graph {
        return Err(Refusal::Limit(0));
    }
    if Limit::WORK < l.work {
        return Err(Refusal::Limit(0));
    }
    if Limit::CELLS < l.text {
        return Err(Refusal::Limit(0));
    }
    if Limit::CELLS < l.goals {
        return Err(Refusal::Limit(0));
    }
    if l.work < Lent::WORK_SHARE * (l.pattern + l.graph + l.pack) + Lent::WORK_MORE {
        return Err(Refusal::Short(Buffer::WORK));
    }
    Ok(())
}
