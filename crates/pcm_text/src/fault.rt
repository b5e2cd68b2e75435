// What a program says of a run that did not end well.
ghost use Rattle.std.specs.Prelude.{◌≡◌, Some, IfOk, string_bytes};
ghost use Rattle.pcm_text.specs.Fault.{line_fault, wav_fault, which_name, bad_line, bad_wav, missing, limit, refused, fault_line};

use crate::{Status, Which, errno_name};
use pcm_base::{Errno, Name};
use pcm_line::LineError;
use std::alloc::{AllocError, Global};
use std::fmt;
use wav_file::WavError;

impl fmt::Display for Which {
    ghost output = { λ w. Some (which_name w) };

    fn fmt<W: fmt::Write>(&self, f: &mut fmt::Formatter<W>) -> fmt::Result {
        f.write_str(match self {
            Which::ScriptBytes => "ScriptBytes",
            Which::ScriptLines => "ScriptLines",
            Which::WavBytes => "WavBytes",
            Which::TakenBytes => "TakenBytes",
            Which::CaptureBytes => "CaptureBytes",
            Which::GenNumber => "GenNumber",
            Which::PlanBytes => "PlanBytes",
            Which::PlanLines => "PlanLines",
            Which::Beats => "Beats",
            Which::LogEntries => "LogEntries",
        })
    }
}

// The fault of a line, as it is printed.
#[derive(Drop)]
struct LineFault(LineError);

impl fmt::Display for LineFault {
    ghost output = { λ f. Some (line_fault f.0) };

    fn fmt<W: fmt::Write>(&self, f: &mut fmt::Formatter<W>) -> fmt::Result {
        match self.0 {
            LineError::Word(at) => write!(f, "word at {at}"),
            LineError::Number(at) => write!(f, "number at {at}"),
            LineError::Short => f.write_str("short"),
            LineError::Long(at) => write!(f, "long at {at}"),
            LineError::Memory => f.write_str("out of memory"),
        }
    }
}

// The fault of a file, as it is printed.
#[derive(Drop)]
struct WavFault(WavError);

impl fmt::Display for WavFault {
    ghost output = { λ f. Some (wav_fault f.0) };

    fn fmt<W: fmt::Write>(&self, f: &mut fmt::Formatter<W>) -> fmt::Result {
        match self.0 {
            WavError::NotRiff => f.write_str("not RIFF"),
            WavError::NoFmt => f.write_str("no fmt"),
            WavError::NoData => f.write_str("no data"),
            WavError::BadFmt(at) => write!(f, "bad fmt at {at}"),
            WavError::NotPcm(tag) => write!(f, "not PCM {tag}"),
            WavError::Width(bits) => write!(f, "width {bits}"),
            WavError::TooLong(bytes) => write!(f, "too long {bytes}"),
            WavError::Memory => f.write_str("out of memory"),
        }
    }
}

fn text_of(name: &Name) -> &str
    ensures { result.now ≡ name.now }
{
    match str::from_utf8(name.as_slice()) {
        Ok(text) => text,
        Err(_) => unreachable!(),
    }
}

fn bad_line_text(alloc: Global, line: u64, error: LineError) -> Result<String, AllocError>
    ensures { IfOk result (λ s. string_bytes s ≡ bad_line line error) }
{
    let fault = LineFault(error);
    format!(in alloc; "bad line {line}: {fault}")
}

fn bad_wav_text(alloc: Global, file: &str, error: WavError) -> Result<String, AllocError>
    ensures { IfOk result (λ s. string_bytes s ≡ bad_wav file.now error) }
{
    let fault = WavFault(error);
    format!(in alloc; "bad wav {file}: {fault}")
}

fn missing_text(alloc: Global, file: &str) -> Result<String, AllocError>
    ensures { IfOk result (λ s. string_bytes s ≡ missing file.now) }
{
    format!(in alloc; "missing {file}")
}

fn limit_text(alloc: Global, which: Which, value: u64) -> Result<String, AllocError>
    ensures { IfOk result (λ s. string_bytes s ≡ limit which value) }
{
    format!(in alloc; "limit {which} {value}")
}

fn refused_text(alloc: Global, errno: Errno) -> Result<String, AllocError>
    ensures { IfOk result (λ s. string_bytes s ≡ refused errno) }
{
    let name = errno_name(errno);
    let number = errno.number();
    format!(in alloc; "refused {name} {number}")
}

/// What a program says of this status after its own name, without a line feed; nothing of `Ok`. This project's own.
pub fn fault_text(alloc: Global, status: &Status) -> Result<String, AllocError>
    ensures { IfOk result (λ s. string_bytes s ≡ fault_line status.now) }
{
    match status {
        Status::Ok => Ok(String::new(alloc)),
        Status::Usage => String::from_str(alloc, "usage"),
        Status::BadLine(line, error) => bad_line_text(alloc, *line, *error),
        Status::ReadFault => String::from_str(alloc, "read failed"),
        Status::WriteFault => String::from_str(alloc, "write failed"),
        Status::ShelfFault => String::from_str(alloc, "file access failed"),
        Status::Missing(name) => missing_text(alloc, text_of(name)),
        Status::BadWav(name, error) => bad_wav_text(alloc, text_of(name), *error),
        Status::Memory => String::from_str(alloc, "out of memory"),
        Status::Limit(which, value) => limit_text(alloc, *which, *value),
        Status::Refused(errno) => refused_text(alloc, *errno),
    }
}
