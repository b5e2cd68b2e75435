//! One substream over a card: its set-up, its pointers and buffer, the card's movements, the update that finds an
//! underrun, and its part in the acts of a group.
//!
//! It stands on `pcm_base` for the model and the card, and on the crates of the parts: `hw_params`, `sw_params`,
//! `ring_memory`, `boundary_ptr`, `hw_update`, `silence_fill`, `state_table`, `sleepers` and `pcm_format`. Its source is `pcm_lib.c`
//! and `pcm_native.c` of the kernel.
#![tactic(auto)]

pub mod laws;
mod members;
mod runtime;
mod substream;
#[cfg(test)]
mod tests;

pub use members::{Member, Members};
pub use substream::{DmaRefusal, HwRefusal, Substream};
