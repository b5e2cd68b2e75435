//! Hardware parameters: which configurations a card model allows, the sizes that follow from one, and the least box that
//! holds what a model and a space leave.
//!
//! It stands on the types and the model of `pcm_base`. Source: `snd_pcm_hw_params` and `snd_pcm_hw_refine` of
//! `pcm_native.c`, where rules narrow one parameter after another until none moves; here the box is exact, which is this
//! project's own.
#![tactic(auto)]

mod accept;
mod base;
mod hull;
mod masks;
mod sizes;
mod spans;
#[cfg(test)]
mod tests;

pub use accept::{allowed_is_the_test, check};
pub use hull::{hull_is_the_least_box, one_hull, refine};
