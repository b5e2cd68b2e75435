// How a script ends.
ghost use Rattle.std.specs.Prelude.{◌≡◌};

use pcm_base::Name;
use pcm_line::LineError;
use std::alloc::AllocError;
use wav_file::WavError;

/// How the lines of a script end: all were executed, one is none of the command (by its number from 1), there are too many
/// lines or bytes, the shelf failed at a file of theirs, or such a file is missing, too long or no WAV file.
#[derive(Drop)]
pub enum End {
    Whole,
    BadLine(u64, LineError),
    ScriptLines,
    ScriptBytes,
    ShelfFault,
    Missing(Name),
    WavBytes,
    BadWav(Name, WavError),
}

/// What cut a run short before the end of its script: a fault of the source or of the sink, or want of memory.
#[derive(Clone, Copy, Debug, PartialEq, Eq)]
pub enum Cut {
    ReadFault,
    WriteFault,
    Memory,
}

/// Why a line was not answered: it ends the script, or there was no memory.
#[derive(Drop)]
pub enum Unanswered {
    Ended(End),
    Memory,
}

impl From<AllocError> for Unanswered {
    ghost use Rattle.pcm_top.specs.declared.end.Unanswered.TheVariants.{Memory};

    ghost from_gives = { λ _ e. e ≡ Memory };

    fn from(_e: AllocError) -> Unanswered {
        Unanswered::Memory
    }
}
