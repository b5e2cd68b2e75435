//! What fits in a room: the replay of a marked log, the book of a room, and that an event keeps both.
//!
//! It stands on `pcm_base` for the model, on `pcm_laws` for the step of a group and on `floor_rule` for the entries. All of
//! it is this project's own.
#![tactic(auto)]

mod book;
pub mod laws;

pub use book::BookEntry;
