// The passes of a floor.
use room_parts::{FloorName, Pass};

/// The passes of a floor: one for each client, and one for each card, in order of their numbers.
#[derive(Drop)]
pub struct Passes<N: FloorName> {
    pub clients: Vec<Pass<N>>,
    pub cards: Vec<Pass<N>>,
}
