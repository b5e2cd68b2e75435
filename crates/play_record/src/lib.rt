//! Playing the sound of a WAV file through a group over a card, and recording one from it, by the events of a client and a
//! card that are in step: the client writes until the buffer is full or reads what has come, the card moves on by whole
//! periods and interrupts.
//!
//! It stands on `pcm_group` for the events, on `card_emul` for the devices of the program and on `wav_file` for the sounds.
//! The way of the client is that of `aplay` and `arecord`; the rest is this project's own.
#![tactic(auto)]

mod deck;
mod device;
mod error;
mod playing;
mod recording;
mod sound;
#[cfg(test)]
mod tests;

pub use deck::Deck;
pub use error::PlayError;
pub use playing::play;
pub use recording::record_frames;
