//! A loopback cable: what a playback card took goes through a ring of bytes, from one end to the other, to be given to a
//! capture card.
//!
//! It stands on `rtrb`, a ring for one producer and one consumer, each of which may move to a thread of its own, and on
//! `arrayvec`. The cable is that of the kernel's loopback driver (`sound/drivers/aloop.c`); its ends are this project's
//! own.
#![tactic(auto)]

mod cable;
mod ends;
#[cfg(test)]
mod tests;

pub use cable::Cable;
pub use ends::{CableIn, CableOut};
