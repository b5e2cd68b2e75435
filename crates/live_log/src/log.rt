// Logs, written.
ghost use Rattle.std.specs.Prelude.{◌≡◌, ◌≢◌, ◌<◌, ◌++◌, length, OnOk, OnErr, Err};
ghost use Rattle.std.specs.Io.KnownBytes.{Appends};
ghost use Rattle.pcm_base.specs.Causes.{Rose};
ghost use Rattle.live_log.specs.Log.{log_text, logs_text};
ghost use Rattle.live_log.specs.Written.{IsCutInto, IsFrontWritten};
ghost use Rattle.live_log.specs.declared.log.LogError.TheVariants as error_of;

use crate::push_entry;
use floor_rule::Entry;
use pcm_base::{Dir, Failed, SubId};
use pcm_io::{Sink, write_pieces, write_rest};
use std::alloc::{AllocError, Global};

/// The log of a substream, with what its text shows beside the entries. This project's own.
#[derive(Clone, Copy)]
pub struct LogOf<'a> {
    /// Whose log it is.
    pub sub: SubId,
    /// The direction of the substream.
    pub dir: Dir,
    /// The entries, in order.
    pub entries: &'a [Entry],
}

/// Why logs were not written, or not whole.
#[derive(Clone, Copy, Debug, PartialEq, Eq)]
pub enum LogError {
    /// A write failed.
    Failed,
    /// There was no memory.
    Memory,
}

impl From<AllocError> for LogError {
    ghost from_gives = { λ _ e. e ≡ error_of.Memory };

    fn from(_e: AllocError) -> LogError {
        LogError::Memory
    }
}

impl From<Failed> for LogError {
    ghost from_gives = { λ _ e. e ≡ error_of.Failed };

    fn from(_e: Failed) -> LogError {
        LogError::Failed
    }
}

/// Puts the log behind the text, line by line, and writes the text as soon as it fills pieces of 4,096 bytes; the rest, less
/// than a piece where less stood there before, is left in the text. After an error a front of both is written, and what
/// stands in the text means nothing. This project's own.
pub fn write_log<K: Sink>(text: &mut Vec<u8>, log: LogOf<'_>, out: &mut K) -> Result<(), LogError>
    ensures all { OnOk result (IsCutInto (K.written out.old) (K.written out.new) (text.old.items ++ log_text log.entry) text.new.items) }
    ensures short { OnOk result (length text.old.items < 4096 → length text.new.items < 4096) }
    ensures front { OnErr result (IsFrontWritten (K.written out.old) (K.written out.new) (text.old.items ++ log_text log.entry)) }

    // A fault is the one cause of Failed.
    ensures failed { result ≡ Err error_of.Failed → Rose (K.faults out.old) (K.faults out.new) }
    ensures calm { result ≢ Err error_of.Failed → K.faults out.new ≡ K.faults out.old }
{
    'entries: for place in 0..log.entries.len() {
        push_entry(text, log.dir, log.sub, place as u64, &log.entries[place])?;
        write_pieces(out, text)?;
    }
    Ok(())
}

/// Writes the logs, one behind the other, in pieces of 4,096 bytes and the rest. They stand by rising substream where the
/// caller has them so. After an error a front of their text is written. This project's own.
pub fn write_logs<K: Sink>(alloc: Global, logs: &[LogOf<'_>], out: &mut K) -> Result<(), LogError>
    ensures all { OnOk result (Appends (K.written out.old) (K.written out.new) (logs_text logs.now)) }
    ensures front { OnErr result (IsFrontWritten (K.written out.old) (K.written out.new) (logs_text logs.now)) }

    // A fault is the one cause of Failed.
    ensures failed { result ≡ Err error_of.Failed → Rose (K.faults out.old) (K.faults out.new) }
    ensures calm { result ≢ Err error_of.Failed → K.faults out.new ≡ K.faults out.old }
{
    let mut text = Vec::new(alloc);
    'logs: for log in logs {
        write_log(&mut text, *log, out)?;
    }
    write_rest(out, &mut text)?;
    Ok(())
}
