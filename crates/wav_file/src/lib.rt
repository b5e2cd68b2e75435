//! WAV files: reading one into its frames, and writing frames as one.
//!
//! It stands on `pcm_base` for the formats and on `byteorder` for the numbers of the headers. The layout of chunks is
//! that of RIFF (Multimedia Programming Interface and Data Specifications 1.0), with PCM in 8, 16, 24 or 32 bits, plain
//! or extensible (`WAVEFORMATEXTENSIBLE`). That 24 valid bits in 32 are S24_LE, and which file is refused with which
//! error, and at which offset, is this project's own.
#![tactic(auto)]

mod chunk;
mod layout;
mod reading;
mod samples;
mod wav;
mod writing;

pub use reading::{read_wav, wav_or_fault};
pub use wav::{Wav, WavError};
pub use writing::write_wav;

#[cfg(test)]
mod tests;
