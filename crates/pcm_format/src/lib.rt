//! The samples of the eight formats: the byte of silence, and a sample's value from and to its bytes.
//!
//! It stands on `pcm_base` for the formats and on `byteorder` for the order of bytes. The silent bytes are those of
//! `pcm_formats` in the kernel's `pcm_misc.c`; the value of a sample is what `asound.h` says of its format.
#![tactic(auto)]

mod sample;
mod silence;
mod table;

pub use sample::{get_sample, put_sample};
pub use silence::silence_of;

#[cfg(test)]
mod tests;
