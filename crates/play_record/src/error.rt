// Why nothing was played or recorded.
ghost use Rattle.std.specs.Prelude.{◌≡◌};
ghost use Rattle.play_record.specs.declared.error.PlayError.TheVariants.{Memory};

use pcm_base::Errno;
use std::alloc::AllocError;

/// Why nothing was played or recorded. This project's own.
#[derive(Clone, Copy, Debug, PartialEq, Eq)]
pub enum PlayError {
    /// The card's model refuses the configuration.
    Refused(Errno),
    /// The frames would have so many bytes, more than 64 MiB; 2^64 - 1 stands for any greater number.
    TooMuch(u64),
    /// There was no memory.
    Memory,
}

impl From<AllocError> for PlayError {
    ghost from_gives = { λ _ e. e ≡ Memory };

    fn from(_e: AllocError) -> PlayError {
        PlayError::Memory
    }
}
