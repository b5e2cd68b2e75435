//! The rule of a floor's shared words: a page word and a place word for each substream, and the seats that step on them.
//! The seat of a rec adds entries to the log of its substream; the seat of a pass makes calls, reads pages and is told of
//! logs; notes carry what one seat knows to another.
//!
//! It stands on `pcm_base` and on the tables of `atomic_table`. All of it is this project's own. Logs, calls and notes
//! exist in the proofs alone: what threads share is two words a substream. No call takes memory but `SharedWords::new`.
#![tactic(auto)]

mod calling;
mod entry;
pub mod laws;
mod note;
mod page;
mod pass_seat;
mod rec_seat;
mod rule;
#[cfg(test)]
mod tests;
mod words;

pub use calling::{link_call, own_call};
pub use entry::{Entry, EntryMark, Joint, Joints};
pub use note::Note;
pub use page::{Glance, pack, unpack};
pub use pass_seat::PassSeat;
pub use rec_seat::RecSeat;
pub use words::{Maker, SharedWords};
