//! A floor: the substreams of several cards in rooms behind locks, and a pass for each client and each card.
//!
//! It stands on `room_lock` for what happens in a room, and on `floor_rule` and `room_parts` for the words that threads share
//! and for the passes, and on `live_gather` for what is left at its end. All of it is this project's own. A call locks one room;
//! a link or an unlink locks those that it touches, under a lock that orders them; a page is read without a lock.
#![tactic(auto)]

mod counted;
mod floor;
mod floor_gather;
mod floor_links;
mod floor_unlinks;
mod linking;
mod opening;
mod passes;
#[cfg(test)]
mod tests;
mod turn;
mod unlinking;
#[cfg(test)]
mod worked_tests;

pub use floor::Floor;
pub use passes::Passes;
