//! A card with a small hardware buffer of its own: what a playback card takes, and what a capture card gives, passes
//! through that buffer in pieces.
//!
//! It stands on `pcm_base`, whose trait `Card` it implements over any card. The buffer is that of the kernel's
//! `include/sound/pcm-indirect.h`; 16 frames, and the slots that contracts see, are this project's own.
#![tactic(auto)]

mod buffer;
mod card;

pub use card::IndirectCard;
