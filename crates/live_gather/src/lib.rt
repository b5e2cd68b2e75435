//! What is gathered of a floor at rest: the log of each of its cards, with the stream to which it plays, held against what
//! each caller knows.
//!
//! It stands on `room_parts` for the recs and the passes, on `room_book` for the replay of a log and on `pcm_stream` for the
//! streams. All of it is this project's own. Nothing here takes memory or waits.
#![tactic(auto)]

mod gathered;
mod gathering;
mod ordering;
mod piece;
mod telling;
#[cfg(test)]
mod tests;

pub use gathered::{Gathered, Log};
pub use gathering::gather;
pub use piece::{Piece, add_pieces};
