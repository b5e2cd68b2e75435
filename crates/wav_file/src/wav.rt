// What a file holds, and why one is refused.
ghost use Rattle.std.specs.Prelude.{◌≡◌};
ghost use Rattle.wav_file.specs.declared.wav.WavError.TheVariants.{Memory};

use pcm_base::Format;
use std::alloc::AllocError;
use thiserror::Error;

/// The sound of a WAV file: its format, channels, rate in Hz, and whole interleaved frames as bytes.
#[derive(Debug, Drop)]
pub struct Wav {
    pub format: Format,
    pub channels: u64,
    pub rate: u64,
    pub frames: Vec<u8>,
}

/// Why a file could not be read, or frames not be written. Offsets count bytes from the start of the file.
#[derive(Clone, Copy, Debug, PartialEq, Eq, Error)]
pub enum WavError {
    /// The file does not begin as a WAV file.
    #[error("not RIFF")]
    NotRiff,
    /// A "data" chunk or the end comes before any "fmt " chunk.
    #[error("no fmt")]
    NoFmt,
    /// No "data" chunk comes.
    #[error("no data")]
    NoData,
    /// The field at this offset of the "fmt " chunk is wrong, or the chunk at this offset reaches beyond the end.
    #[error("bad fmt at {0}")]
    BadFmt(usize),
    /// The samples are not PCM, but of this tag, or of an extensible file's subtype that begins with this number.
    #[error("not PCM {0}")]
    NotPcm(u16),
    /// The samples have this many bits, or more valid bits than bits, namely this many.
    #[error("width {0}")]
    Width(u16),
    /// This many bytes of frames are too long to be written.
    #[error("{0} bytes of frames")]
    TooLong(u64),
    /// Memory ran out.
    #[error("out of memory")]
    Memory,
}

impl From<AllocError> for WavError {
    ghost from_gives = { λ _ e. e ≡ Memory };

    fn from(_error: AllocError) -> WavError {
        WavError::Memory
    }
}
