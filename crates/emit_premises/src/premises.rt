// What a rule's premises come to.
use emit_state::standing::Standing;

// So many premises; or none, since the conclusion does not match or does not give each of their variables.
#[derive(Clone, Copy)]
pub enum Premises {
    Built(Standing, usize),
    Lacks(Standing),
}
