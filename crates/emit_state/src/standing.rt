// The numbers of emission's state.
ghost use Rattle.std.specs.Prelude.{◌≡◌};
ghost use Rattle.emit_state.specs.Grown.{having_patterns};

use definition::Refusal;
use memo::memo::Memo;
use store::nodes::Store;

// What the state has beside the words in the buffers.
#[derive(Clone, Copy)]
pub struct Standing {
    // The patterns.
    pub store: Store,
    // Where the proof text ends.
    pub text: usize,
    // How many lines have a step's number: step, hyp and induct lines.
    pub steps: u32,
    // How many def lines there are.
    pub definitions: u32,
    // How many var lines.
    pub variables: u32,
    // How many induct lines.
    pub inductions: u32,
    // How many entries the trail has.
    pub trail: usize,
    // The failures that are remembered.
    pub failed: Memo,
    // How many hypotheses are in scope.
    pub hyps: u32,
}

impl Standing {
    // The numbers with these patterns.
    pub fn with_store(self, store: Store) -> Standing
        ensures { result ≡ having_patterns store self }
    {
        Standing { store, ..self }
    }
}

// What a search comes to: a line, or none, with the state; or a refusal, which is a short buffer.
#[derive(Clone, Copy)]
pub enum Proved {
    Line(Standing, u32),
    Fails(Standing),
    Refused(Refusal),
}
