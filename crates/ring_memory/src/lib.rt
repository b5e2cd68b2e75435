//! The memory of a ring buffer: frames at positions without end, each in the slot that its position has modulo the
//! buffer.
//!
//! It stands on the shape of `pcm_base`, and its contracts on the puts of `pcm_base`'s model: a ring stands for a list
//! of puts where each slot holds the last put in it. The source is the ring buffer of "Writing an ALSA Driver" and
//! `snd_pcm_lib_write` of `pcm_lib.c`; frames lie one after another, or the samples of each channel in an area of
//! their own.
#![tactic(auto)]

mod interleaved;
mod planar;
mod ring;
mod round;
mod sample;
mod sizes;
#[cfg(test)]
mod tests;

pub use ring::Ring;
