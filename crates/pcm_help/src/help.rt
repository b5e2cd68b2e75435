// What a person is told beside a fault.
ghost use Rattle.std.specs.Prelude.{◌≡◌, ◌≤◌, ◌⊎◌, ℕ, List, [], IfOk, IsSome, option_copied, Some};
ghost use Rattle.pcm_help.specs.BadLine.{ShowsLine};
ghost use Rattle.pcm_help.specs.Recent.{Kept, Holds, first_whole, last_begun};
ghost use Rattle.pcm_line.specs.declared.error.LineError.{LineError as LineErrorOf};
ghost use Rattle.pcm_text.specs.declared.status.Status.TheVariants as status_of;

use crate::bad_line::bad_line_text;
use crate::command::Command;
use crate::file::{push_file, push_line};
use crate::limit::{push_limit, push_refused};
use crate::recent::{Recent, first_line};
use crate::sentence::push_sentence;
use crate::shelf::Asked;
use crate::usage::push_usage;
use pcm_base::CardModel;
use pcm_line::LineError;
use pcm_text::{Status, Which};
use std::alloc::{AllocError, Global};

/// What is known of a run beside its status. This project's own.
#[derive(Drop)]
pub struct Seen<'a> {
    /// The command that was asked for.
    pub command: Option<Command>,
    /// The last bytes of the script.
    pub recent: Option<&'a Recent>,
    /// The number of the last line that was answered.
    pub answered: u64,
    /// The file that was asked for last.
    pub asked: Option<&'a Asked>,
    /// The model of the card on which files are played and recorded.
    pub model: &'a CardModel,
}

// What is told of a line that is not kept, since it is too long.
fn unkept_text(alloc: Global) -> Result<Vec<u8>, AllocError> {
    let mut text = Vec::new(alloc);
    push_sentence(&mut text, b"the line is too long to be shown")?;
    Ok(text)
}

// The text of a line, where it is kept.
fn kept_line_text(
    alloc: Global,
    command: Command,
    recent: &Recent,
    number: u64,
    fault: LineError,
) -> Result<Vec<u8>, AllocError>
    ensures { (all : List ℕ) → Holds recent.now all → first_whole recent.now ≤ number → number ≤ last_begun recent.now
        → IfOk result (λ text. ShowsLine number fault all text.items) }
{
    match recent.from_line(number) {
        Some(rest) => bad_line_text(alloc, command, first_line(rest), fault),
        None => unkept_text(alloc),
    }
}

// What is told of a bad line.
fn line_text(
    alloc: Global,
    seen: &Seen,
    number: u64,
    fault: LineError,
) -> Result<Vec<u8>, AllocError>
    ensures { (kept : Kept) (all : List ℕ) → IsSome seen.now.command → option_copied seen.now.recent ≡ Some kept → Holds kept all → first_whole kept ≤ number → number ≤ last_begun kept
        → IfOk result (λ text. ShowsLine number fault all text.items) }
{
    match (seen.command, seen.recent) {
        (Some(command), Some(recent)) => kept_line_text(alloc, command, recent, number, fault),
        _ => Ok(Vec::new(alloc)),
    }
}

// What is told of a file, in `run` with the line that asked for it.
fn file_text(alloc: Global, status: &Status, seen: &Seen) -> Result<Vec<u8>, AllocError> {
    let mut text = Vec::new(alloc);
    if let (Some(Command::Run), Some(recent)) = (seen.command, seen.recent) {
        push_line(&mut text, recent, seen.answered)?;
    }
    push_file(alloc, &mut text, status, seen.asked)?;
    Ok(text)
}

// What is told of a status that names neither a line nor a file.
fn plain_text(alloc: Global, status: &Status, model: &CardModel) -> Result<Vec<u8>, AllocError> {
    let mut text = Vec::new(alloc);
    match status {
        Status::Usage => push_usage(alloc, &mut text)?,
        Status::ReadFault => push_sentence(&mut text, b"standard input could not be read")?,
        Status::WriteFault => push_sentence(&mut text, b"standard output could not be written")?,
        Status::Limit(which, _) => push_limit(&mut text, *which)?,
        Status::Refused(_) => push_refused(alloc, &mut text, model)?,
        _ => {}
    }
    Ok(text)
}

/// What a person is told beside the fault of this status, in whole lines; nothing of `Ok` and of want of memory. This
/// project's own.
pub fn help_text(alloc: Global, status: &Status, seen: &Seen) -> Result<Vec<u8>, AllocError>
    ensures line { (number : ℕ) (fault : LineErrorOf) (kept : Kept) (all : List ℕ) → status.now ≡ status_of.BadLine number fault → IsSome seen.now.command → option_copied seen.now.recent ≡ Some kept
        → Holds kept all → first_whole kept ≤ number → number ≤ last_begun kept → IfOk result (λ text. ShowsLine number fault all text.items) }
    ensures nothing { (status.now ≡ status_of.Ok) ⊎ (status.now ≡ status_of.Memory) → IfOk result (λ text. text.items ≡ []) }
{
    match status {
        Status::Ok | Status::Memory => Ok(Vec::new(alloc)),
        Status::BadLine(number, fault) => line_text(alloc, seen, *number, *fault),
        Status::ShelfFault | Status::Missing(_) | Status::BadWav(..) => {
            file_text(alloc, status, seen)
        }
        Status::Limit(Which::WavBytes, _) => file_text(alloc, status, seen),
        _ => plain_text(alloc, status, seen.model),
    }
}
