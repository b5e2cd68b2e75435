//! A room: the group that stands in it, with the logs of its members and its book, behind one lock.
//!
//! It stands on `pcm_group` for a step of the group, on `floor_rule` and `room_parts` for the logs and the passes, and on
//! `room_book` for what fits in a room. All of it is this project's own.
#![tactic(auto)]

mod answer;
mod contents;
mod free;
mod joining;
mod joints;
pub mod laws;
mod leaving;
mod linking;
mod links;
mod meeting;
mod members;
mod moved;
mod moving;
mod new_rooms;
mod noting;
mod parting;
mod ready;
mod recording;
mod recs;
mod refusing;
mod room;
mod room_links;
mod staying;
mod stepping;
#[cfg(test)]
mod tests;
mod unlinking;
mod within;

pub use answer::Answer;
pub use recording::Receipt;
pub use room::Room;
pub use room_links::{
    link_rooms, link_to_group, link_to_itself, link_within, unlink_alone, unlink_from_group,
    unlink_rooms,
};
