//! The script that the command `gen` runs: two linked playback substreams with small buffers, which are written, moved and
//! interrupted in turn, by counts from a simple generator of numbers.
//!
//! It stands on `pcm_text`, whose words a script shares. The script is this project's own.
#![tactic(auto)]

mod script;
#[cfg(test)]
mod tests;

pub use script::gen_script;
