// How a run of a program ends.
ghost use Rattle.std.specs.Prelude.{◌≡◌};

use pcm_base::{Errno, Name};
use pcm_line::LineError;
use wav_file::WavError;

/// The quantity that reached its limit: bytes and lines of a script or a plan, bytes of a WAV file, bytes taken by a
/// card or captured, the generator's number, beats over all, entries of a log. This project's own.
#[derive(Clone, Copy, Debug, PartialEq, Eq)]
pub enum Which {
    ScriptBytes,
    ScriptLines,
    WavBytes,
    TakenBytes,
    CaptureBytes,
    GenNumber,
    PlanBytes,
    PlanLines,
    Beats,
    LogEntries,
}

/// How a run of a program ends. This project's own.
#[derive(Drop)]
pub enum Status {
    /// The input was read to its end and all was written.
    Ok,
    /// The words of the command line have none of the program's forms.
    Usage,
    /// This line, counted from 1, is the first that is none of the command.
    BadLine(u64, LineError),
    /// The input could not be read.
    ReadFault,
    /// The output could not be written.
    WriteFault,
    /// A file could not be read or written.
    ShelfFault,
    /// No file has this name.
    Missing(Name),
    /// The file of this name is no WAV file that can be played.
    BadWav(Name, WavError),
    /// There was no memory.
    Memory,
    /// The quantity has this value, above its limit.
    Limit(Which, u64),
    /// The card's model refuses the configuration.
    Refused(Errno),
}

impl Status {
    ghost use Rattle.pcm_text.specs.Fault.{status_number};

    /// The number with which the program ends: 0 where all went well.
    pub fn number(&self) -> u8
        ensures { result ≡ status_number self.now }
    {
        match self {
            Status::Ok => 0,
            Status::Usage => 1,
            Status::BadLine(..) => 2,
            Status::ReadFault => 3,
            Status::WriteFault => 4,
            Status::ShelfFault => 5,
            Status::Missing(_) => 6,
            Status::BadWav(..) => 7,
            Status::Memory => 8,
            Status::Limit(..) => 9,
            Status::Refused(_) => 10,
        }
    }
}
