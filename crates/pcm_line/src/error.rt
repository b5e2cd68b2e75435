// Why a line is none.
ghost use Rattle.std.specs.Prelude.{◌≡◌};
ghost use Rattle.pcm_line.specs.declared.error.LineError.TheVariants.{Memory};

use std::alloc::{AllocError, AllocFailed};
use thiserror::Error;

/// The leftmost fault of bytes that are no line. Offsets are in bytes from the line's begin, and tell where the piece at
/// fault begins. This project's own.
#[derive(Clone, Copy, Debug, PartialEq, Eq, Error)]
pub enum LineError {
    /// This piece is not what the form expects here; the first piece, where it is no keyword.
    #[error("word at {0}")]
    Word(usize),
    /// This piece is no number, where the form expects one.
    #[error("number at {0}")]
    Number(usize),
    /// The form expects one more piece.
    #[error("short")]
    Short,
    /// The form does not expect this piece.
    #[error("long at {0}")]
    Long(usize),
    /// There is no memory for the line's bytes.
    #[error("out of memory")]
    Memory,
}

impl From<AllocError> for LineError {
    ghost from_gives = { λ _ e. e ≡ Memory };

    fn from(_e: AllocError) -> LineError {
        LineError::Memory
    }
}

impl<T: Drop> From<AllocFailed<T>> for LineError {
    ghost from_gives = { λ _ e. e ≡ Memory };

    fn from(_e: AllocFailed<T>) -> LineError {
        LineError::Memory
    }
}
