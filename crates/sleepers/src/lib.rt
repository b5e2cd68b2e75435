//! The calls in progress on one substream: who is asleep in a transfer or a drain, and whom a check of the substream's
//! state wakes.
//!
//! It stands on `pcm_base`. The rule of who may wait is that of the kernel's wait loop (`wait_for_avail` and
//! `snd_pcm_drain` of `sound/core`); one list with marks in place of wait queues is this project's own.
#![tactic(auto)]

mod list;
mod place;
#[cfg(test)]
mod tests;
mod wake;

pub use list::Sleepers;
