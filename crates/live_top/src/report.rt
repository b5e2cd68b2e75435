// What is written of a run.
ghost use Rattle.std.specs.Prelude.{◌≡◌, ◌≢◌, ◌++◌, ℕ, List, length, Err, IfErr, IfNone, IfSome, OnErr, OnOk};
ghost use Rattle.std.specs.Io.KnownBytes.{Appends};
ghost use Rattle.pcm_base.specs.Causes.{Rose};
ghost use Rattle.pcm_base.specs.model.Stream.{Stream};
ghost use Rattle.pcm_text.specs.declared.status.Status.TheVariants as status;
ghost use Rattle.floor_rule.specs.declared.entry.Entry.{Entry};
ghost use Rattle.live_log.specs.Written.{IsCutInto, IsFrontWritten};
ghost use Rattle.live_log.specs.declared.log.LogError.TheVariants as log_error;
ghost use Rattle.live_top.specs.Ends.{AreOf, IsFirstFull, IsNoneFull, IsReportEnd, ends_text, status_of as status_of_log, texts, whole_text};

use live_gather::Gathered;
use live_log::{LogError, LogOf, write_log};
use pcm_io::{Sink, write_rest};
use pcm_text::{Status, end_text};
use std::alloc::{AllocError, Global};

/// A log with more entries than these takes no more.
const FULL: usize = 16_777_212;

fn status_of(fault: LogError) -> Status
    ensures { result ≡ status_of_log fault }
{
    match fault {
        LogError::Failed => Status::WriteFault,
        LogError::Memory => Status::Memory,
    }
}

// The `end` lines behind the text.
fn push_ends(alloc: Global, text: &mut Vec<u8>, all: &[Gathered]) -> Result<(), AllocError>
    ensures { (logs : ℕ → List Entry) (streams : ℕ → Stream) → AreOf logs streams all.now → OnOk result (text.new.items ≡ text.old.items ++ ends_text (length all.now) streams) }
{
    'ends: for one in all {
        let line = end_text(
            alloc,
            one.log.sub,
            &one.stream.page(),
            one.stream.moved_total(),
        )?;
        text.extend_from_slice(&line)?;
    }
    Ok(())
}

// The logs, all but the rest of their text, which is left.
fn write_logs<K: Sink>(text: &mut Vec<u8>, all: &[Gathered], out: &mut K) -> Result<(), LogError>
    ensures all { (logs : ℕ → List Entry) (streams : ℕ → Stream) → AreOf logs streams all.now
        → OnOk result (IsCutInto (K.written out.old) (K.written out.new) (text.old.items ++ texts (length all.now) streams logs) text.new.items) }
    ensures front { (logs : ℕ → List Entry) (streams : ℕ → Stream) → AreOf logs streams all.now
        → OnErr result (IsFrontWritten (K.written out.old) (K.written out.new) (text.old.items ++ texts (length all.now) streams logs)) }
    ensures failed { result ≡ Err log_error.Failed → Rose (K.faults out.old) (K.faults out.new) }
    ensures calm { result ≢ Err log_error.Failed → K.faults out.new ≡ K.faults out.old }
{
    'logs: for one in all {
        let log = LogOf {
            sub: one.log.sub,
            dir: one.stream.dir(),
            entries: &one.log.entries,
        };
        write_log(text, log, out)?;
    }
    Ok(())
}

fn write_stopped<K: Sink>(alloc: Global, all: &[Gathered], out: &mut K) -> Result<(), LogError>
    ensures all { (logs : ℕ → List Entry) (streams : ℕ → Stream) → AreOf logs streams all.now
        → OnOk result (Appends (K.written out.old) (K.written out.new) (texts (length all.now) streams logs)) }
    ensures front { (logs : ℕ → List Entry) (streams : ℕ → Stream) → AreOf logs streams all.now
        → OnErr result (IsFrontWritten (K.written out.old) (K.written out.new) (texts (length all.now) streams logs)) }
    ensures failed { result ≡ Err log_error.Failed → Rose (K.faults out.old) (K.faults out.new) }
    ensures calm { result ≢ Err log_error.Failed → K.faults out.new ≡ K.faults out.old }
{
    let mut text = Vec::new(alloc);
    write_logs(&mut text, all, out)?;
    write_rest(out, &mut text)?;
    Ok(())
}

fn write_whole<K: Sink>(alloc: Global, all: &[Gathered], out: &mut K) -> Result<(), LogError>
    ensures all { (logs : ℕ → List Entry) (streams : ℕ → Stream) → AreOf logs streams all.now
        → OnOk result (Appends (K.written out.old) (K.written out.new) (whole_text (length all.now) streams logs)) }
    ensures front { (logs : ℕ → List Entry) (streams : ℕ → Stream) → AreOf logs streams all.now
        → OnErr result (IsFrontWritten (K.written out.old) (K.written out.new) (whole_text (length all.now) streams logs)) }
    ensures failed { result ≡ Err log_error.Failed → Rose (K.faults out.old) (K.faults out.new) }
    ensures calm { result ≢ Err log_error.Failed → K.faults out.new ≡ K.faults out.old }
{
    let mut text = Vec::new(alloc);
    write_logs(&mut text, all, out)?;
    push_ends(alloc, &mut text, all)?;
    write_rest(out, &mut text)?;
    Ok(())
}

/// Writes the logs of a run that a full log stopped.
pub(crate) fn report_stopped<K: Sink>(
    alloc: Global,
    all: &[Gathered],
    out: &mut K,
) -> Result<(), Status>
    ensures all { (logs : ℕ → List Entry) (streams : ℕ → Stream) → AreOf logs streams all.now
        → OnOk result (Appends (K.written out.old) (K.written out.new) (texts (length all.now) streams logs)) }
    ensures front { (logs : ℕ → List Entry) (streams : ℕ → Stream) → AreOf logs streams all.now
        → OnErr result (IsFrontWritten (K.written out.old) (K.written out.new) (texts (length all.now) streams logs)) }
    ensures ended { IfErr result IsReportEnd }
    ensures rose { result ≡ Err status.WriteFault → Rose (K.faults out.old) (K.faults out.new) }
    ensures calm { result ≢ Err status.WriteFault → K.faults out.new ≡ K.faults out.old }
{
    match write_stopped(alloc, all, out) {
        Ok(()) => Ok(()),
        Err(fault) => Err(status_of(fault)),
    }
}

/// Writes the logs of a run that came to its end, and behind them the `end` lines.
pub(crate) fn report_whole<K: Sink>(
    alloc: Global,
    all: &[Gathered],
    out: &mut K,
) -> Result<(), Status>
    ensures all { (logs : ℕ → List Entry) (streams : ℕ → Stream) → AreOf logs streams all.now
        → OnOk result (Appends (K.written out.old) (K.written out.new) (whole_text (length all.now) streams logs)) }
    ensures front { (logs : ℕ → List Entry) (streams : ℕ → Stream) → AreOf logs streams all.now
        → OnErr result (IsFrontWritten (K.written out.old) (K.written out.new) (whole_text (length all.now) streams logs)) }
    ensures ended { IfErr result IsReportEnd }
    ensures rose { result ≡ Err status.WriteFault → Rose (K.faults out.old) (K.faults out.new) }
    ensures calm { result ≢ Err status.WriteFault → K.faults out.new ≡ K.faults out.old }
{
    match write_whole(alloc, all, out) {
        Ok(()) => Ok(()),
        Err(fault) => Err(status_of(fault)),
    }
}

/// The count of entries of the first log that takes no more.
pub(crate) fn full_count(all: &[Gathered]) -> Option<u64>
    ensures first { (logs : ℕ → List Entry) (streams : ℕ → Stream) → AreOf logs streams all.now → IfSome result (IsFirstFull (length all.now) logs) }
    ensures none { (logs : ℕ → List Entry) (streams : ℕ → Stream) → AreOf logs streams all.now → IfNone result (IsNoneFull (length all.now) logs) }
{
    'logs: for one in all {
        if one.log.entries.len() > FULL {
            return Some(one.log.entries.len() as u64);
        }
    }
    None
}
