//! The printed texts: the lines of a transcript, and what a program says of a run that did not end well.
//!
//! It stands on the words of `pcm_base`, and on `pcm_line` and `wav_file` for the faults of lines and files. The names of
//! states and errors are those of the kernel's `asound.h` and `errno.h`; the texts are this project's own.
#![tactic(auto)]

mod end;
mod fault;
mod hex;
mod names;
mod push;
mod reply;
mod status;
#[cfg(test)]
mod tests;
mod told;
mod woken;

pub use end::end_text;
pub use fault::fault_text;
pub use hex::push_hex;
pub use names::{errno_name, state_name};
pub use push::{push_number, push_text};
pub use reply::push_reply;
pub use status::{Status, Which};
pub use told::{push_told, told_text};
