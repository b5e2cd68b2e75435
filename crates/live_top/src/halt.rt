// Why a run ends before its end.
ghost use Rattle.std.specs.Prelude.{◌≡◌};
ghost use Rattle.live_top.specs.declared.halt.Halt.TheVariants.{Ended as EndedHalt};
ghost use Rattle.pcm_text.specs.declared.status.Status.TheVariants.{Memory as MemoryStatus};

use pcm_text::Status;
use std::alloc::AllocError;

/// Why a run ends before its end.
#[derive(Drop)]
pub(crate) enum Halt {
    /// A log takes no more entries. The logs are written all the same.
    Full,
    /// The run ends with this status, and nothing is written.
    Ended(Status),
}

impl From<AllocError> for Halt {
    ghost from_gives = { λ _ h. h ≡ EndedHalt MemoryStatus };

    fn from(_e: AllocError) -> Halt {
        Halt::Ended(Status::Memory)
    }
}

impl From<Status> for Halt {
    ghost from_gives = { λ s h. h ≡ EndedHalt s };

    fn from(status: Status) -> Halt {
        Halt::Ended(status)
    }
}
