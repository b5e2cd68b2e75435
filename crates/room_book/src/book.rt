// The book of a room.
use pcm_base::{Acted, SubId};

/// What a room notes: who comes in, who goes out, and each act over its group.
#[derive(Drop)]
pub enum BookEntry {
    In(SubId),
    Out(SubId),
    Act(Acted),
}
