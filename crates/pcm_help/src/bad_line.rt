// What is told of a line at fault.
ghost use Rattle.std.specs.Prelude.{◌≤◌, IfOk, length};
ghost use Rattle.pcm_help.specs.BadLine.{Points};

use crate::command::Command;
use crate::form::{push_form, push_keywords};
use crate::misplaced::place_of;
use crate::odd::odd_in;
use crate::operand::{operand_name, push_kind};
use crate::piece::{Piece, pieces_before};
use crate::sentence::push_sentence;
use crate::window::push_pointed;
use pcm_line::{Keyword, LineError, PieceKind};
use pcm_text::push_text;
use std::alloc::{AllocError, Global};

// The place behind the keyword of the piece at fault, counted from 0.
fn place_of_fault(line: &[u8], fault: LineError, piece: Piece) -> usize {
    let before = line.get(..piece.at).unwrap_or(line);
    let pieces = pieces_before(before, before.len());
    match fault {
        LineError::Short => pieces,
        _ => pieces.saturating_sub(1),
    }
}

// What the piece at this place is to be.
fn push_wanted(
    alloc: Global,
    text: &mut Vec<u8>,
    keyword: Keyword,
    place: usize,
    kind: PieceKind,
    fault: LineError,
) -> Result<(), AllocError> {
    let mut wanted = Vec::new(alloc);
    push_text(&mut wanted, operand_name(keyword, place, kind).as_bytes())?;
    match fault {
        LineError::Short => push_text(&mut wanted, b" is missing: ")?,
        _ => push_text(&mut wanted, b" is ")?,
    }
    push_kind(&mut wanted, keyword, kind)?;
    push_sentence(text, &wanted)
}

// The form of a line with this keyword, and what the piece at fault is to be.
fn push_expected(
    alloc: Global,
    text: &mut Vec<u8>,
    keyword: Keyword,
    line: &[u8],
    fault: LineError,
    piece: Piece,
) -> Result<(), AllocError> {
    push_form(alloc, text, keyword)?;
    let place = place_of_fault(line, fault, piece);
    match keyword.kinds().get(place) {
        Some(kind) => push_wanted(alloc, text, keyword, place, *kind, fault),
        None => push_sentence(text, b"nothing more may follow"),
    }
}

// Where lines with this keyword stand, if the command lacks them, or lacks them here.
fn push_place(
    alloc: Global,
    text: &mut Vec<u8>,
    command: Command,
    keyword: Keyword,
    fault: LineError,
) -> Result<(), AllocError> {
    if command.has(keyword) && fault != LineError::Word(0) {
        return Ok(());
    }
    if let Some(place) = place_of(command, keyword) {
        push_sentence(text, place)?;
    }
    match command {
        Command::Refine => push_form(alloc, text, Keyword::Space),
        _ => Ok(()),
    }
}

// What is told of the piece at fault, where nothing is odd in it.
fn push_plain(
    alloc: Global,
    text: &mut Vec<u8>,
    command: Command,
    line: &[u8],
    fault: LineError,
    piece: Piece,
) -> Result<(), AllocError> {
    let first = Piece::at(line, 0);
    let Some(keyword) = Keyword::of(&line[first.at..first.end]) else {
        return push_keywords(alloc, text, command);
    };
    if fault != LineError::Word(0) {
        push_expected(alloc, text, keyword, line, fault, piece)?;
    }
    push_place(alloc, text, command, keyword, fault)
}

// What is told beside the line.
fn notes(
    alloc: Global,
    command: Command,
    line: &[u8],
    fault: LineError,
    piece: Piece,
) -> Result<Vec<u8>, AllocError> {
    let mut text = Vec::new(alloc);
    match odd_in(line, piece) {
        Some(odd) if odd.is_told(command, fault) => push_sentence(&mut text, odd.text())?,
        _ => push_plain(alloc, &mut text, command, line, fault, piece)?,
    }
    Ok(text)
}

/// What is told of a line of a command that has this fault: its bytes, a mark under the piece at fault, and what may stand
/// there.
pub(crate) fn bad_line_text(
    alloc: Global,
    command: Command,
    line: &[u8],
    fault: LineError,
) -> Result<Vec<u8>, AllocError>
    requires { length line.now ≤ 1_048_576 }
    ensures { IfOk result (λ text. Points line.now fault text.items) }
{
    let piece = Piece::of_fault(line, fault);
    let notes = notes(alloc, command, line, fault, piece)?;
    let mut text = Vec::new(alloc);
    push_pointed(&mut text, line, piece)?;
    push_text(&mut text, &notes)?;
    Ok(text)
}
