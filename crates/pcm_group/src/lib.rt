//! One group of substreams: each event of a client or a card as one step, with the calls in progress that fall asleep and
//! are woken (the ioctls of `pcm_native.c` and the wait loop of `pcm_lib.c`).
//!
//! It stands on `group_trigger` for the acts over all members, on `xfer_loop` and `mmap_pages` for the frames, and on
//! `pcm_stream` for one member.
#![tactic(auto)]

mod acts;
mod events;
mod go;
mod group;
mod mapped;
mod own;
mod pointers;
mod transfer;
mod turn;
mod wake;
mod write_read;

pub use group::Group;
pub use turn::{Acts, Turn};
