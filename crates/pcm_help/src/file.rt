// What is told of a file that ended a run, and the line of the script that asked for it.
ghost use Rattle.std.specs.Prelude.{ℕ, List, IfSome};
ghost use Rattle.pcm_help.specs.FileLine.{IsNextSpoken};
ghost use Rattle.pcm_help.specs.Recent.{Holds};

use crate::recent::{Recent, first_line};
use crate::sentence::{push_sentence, push_told};
use crate::shelf::Asked;
use crate::shown::push_shown;
use pcm_base::Name;
use pcm_line::is_skipped;
use pcm_text::{Status, push_number, push_text};
use std::alloc::{AllocError, Global};

/// A line of a script: its number from 1, and its bytes.
#[derive(Clone, Copy)]
pub(crate) struct Numbered<'a> {
    pub number: u64,
    pub line: &'a [u8],
}

/// The first line behind that of this number that a script of version 2 does not skip; None where it is not kept. A script
/// of version 1 skips none, and ends at a line that version 2 would skip.
pub(crate) fn next_spoken(recent: &Recent, answered: u64) -> Option<Numbered<'_>>
    ensures { (all : List ℕ) → Holds recent.now all → IfSome result (λ next. IsNextSpoken all answered next.number next.line.now) }
{
    let mut number = answered.checked_add(1)?;
    let mut rest = recent.from_line(number)?;
    'lines: loop {
        let line = first_line(rest);
        if !is_skipped(2, line) {
            return Some(Numbered { number, line });
        }
        if line.len() == rest.len() {
            return None;
        }
        rest = &rest[line.len() + 1..];
        number = number.checked_add(1)?;
    }
}

/// Puts the line of the script behind the text that asked for the file.
pub(crate) fn push_line(
    text: &mut Vec<u8>,
    recent: &Recent,
    answered: u64,
) -> Result<(), AllocError> {
    let Some(next) = next_spoken(recent, answered) else {
        return Ok(());
    };
    push_text(text, b"  line ")?;
    push_number(text, next.number)?;
    push_text(text, b": ")?;
    push_shown(text, next.line)?;
    push_text(text, b"\n")
}

// What is told of a file that could not be used.
fn push_asked(alloc: Global, text: &mut Vec<u8>, asked: &Asked) -> Result<(), AllocError> {
    match asked {
        Asked::Load(name) => push_told(alloc, text, name, " could not be read"),
        Asked::Store(name) => push_told(alloc, text, name, " could not be written"),
    }
}

fn push_too_long(alloc: Global, text: &mut Vec<u8>, asked: &Asked) -> Result<(), AllocError> {
    match asked {
        Asked::Load(name) | Asked::Store(name) => {
            push_told(
                alloc,
                text,
                name,
                " has more than 68,157,440 bytes, the most of a WAV file",
            )
        }
    }
}

fn push_missing(alloc: Global, text: &mut Vec<u8>, name: &Name) -> Result<(), AllocError> {
    push_told(alloc, text, name, " is no file of the current folder")
}

/// Puts behind the text what is told of the file of this status; `asked` is the file that was asked for last.
pub(crate) fn push_file(
    alloc: Global,
    text: &mut Vec<u8>,
    status: &Status,
    asked: Option<&Asked>,
) -> Result<(), AllocError> {
    match (status, asked) {
        (Status::Missing(name), _) => push_missing(alloc, text, name),
        (Status::BadWav(..), _) => push_sentence(
            text,
            b"wanted is a RIFF file of PCM with 8, 16, 24 or 32 bits and 1 to 8 channels",
        ),
        (Status::ShelfFault, Some(asked)) => push_asked(alloc, text, asked),
        (Status::Limit(..), Some(asked)) => push_too_long(alloc, text, asked),
        _ => Ok(()),
    }
}
