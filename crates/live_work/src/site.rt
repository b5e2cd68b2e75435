// Where workers work.
use crate::crew::Crew;

/// Where the workers of a run work: on this floor, in this crew, behind this gate.
#[derive(Drop)]
pub struct Site<'a, F, G> {
    pub floor: &'a F,
    pub crew: &'a Crew,
    pub gate: &'a G,
}
