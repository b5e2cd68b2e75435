//! The world of a session: the declared substreams in their link groups, each event as one step, links and unlinks, and the
//! clients with their calls in progress (`snd_pcm_link`, `snd_pcm_unlink` and the ioctls of `pcm_native.c`; that a client has
//! one call in progress is this project's own).
//!
//! It stands on `pcm_group` for a step of one group, on `link_group` for members that join and leave, and on `card_emul`.
#![tactic(auto)]

mod bytes;
mod calls;
mod groups;
pub mod laws;
mod links;
#[cfg(test)]
mod pair_tests;
mod steps;
#[cfg(test)]
mod tests;
mod world;

pub use world::World;
