// A call's outcome, and its number and place.
ghost use Rattle.std.specs.Prelude.{◌≡◌};
ghost use Rattle.definition.specs.Answer.{answer, answer_of};
ghost use Rattle.dock_call.specs.Outcome.{refusal_of};

use definition::{Answer, Refusal};

// The number and the place of a refusal.
#[tactic(auto, unfolding(definition::specs::Answer::answer_of))]
fn refusal_answer(r: Refusal) -> Answer
    ensures { result ≡ answer_of r }
{
    match r {
        Refusal::Form(at) => Answer { code: 1, place: at },
        Refusal::Limit(at) => Answer { code: 2, place: at },
        Refusal::Step(step) => Answer {
            code: 3,
            place: step,
        },
        Refusal::Goal(goal) => Answer {
            code: 4,
            place: goal,
        },
        Refusal::Clash(step) => Answer {
            code: 5,
            place: step,
        },
        Refusal::Circle(step) => Answer {
            code: 6,
            place: step,
        },
        Refusal::Instance(step) => Answer {
            code: 7,
            place: step,
        },
        Refusal::Short(buffer) => Answer {
            code: 8,
            place: buffer,
        },
        Refusal::Sorts => Answer { code: 9, place: 0 },
        Refusal::Cut(goal) => Answer {
            code: 10,
            place: goal,
        },
        Refusal::Ground(goal) => Answer {
            code: 11,
            place: goal,
        },
    }
}

// The number and the place of an outcome.
pub fn outcome_answer(o: Result<(), Refusal>) -> Answer
    ensures { result ≡ answer (refusal_of o) }
{
    match o {
        Ok(()) => Answer { code: 0, place: 0 },
        Err(r) => refusal_answer(r),
    }
}
