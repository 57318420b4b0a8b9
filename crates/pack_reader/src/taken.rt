// Why a record is not taken up: it is against its form, or over a limit. What work holds then is left open.
ghost use Rattle.std.specs.Prelude.{◌≡◌};
ghost use Rattle.pack_reader.specs.Fault.{refusal_at};

use definition::Refusal;

#[derive(Clone, Copy)]
pub enum Fault {
    Bad,
    Over,
}

impl Fault {
    // The refusal of the record at `at`.
    pub fn refusal(self, at: usize) -> Refusal
        ensures { result ≡ refusal_at self at }
    {
        match self {
            Fault::Bad => Refusal::Form(at as u64),
            Fault::Over => Refusal::Limit(at as u64),
        }
    }
}
