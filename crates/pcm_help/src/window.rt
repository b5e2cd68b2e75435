// Which bytes of a line are shown, and where the mark stands.
ghost use Rattle.std.specs.Prelude.{◌≡◌, ◌≤◌, ◌<◌, ◌+◌, ◌⊎◌, ◌++◌, OnOk, length, take, drop, replicate};
ghost use Rattle.pcm_help.specs.Shown.{columns as columns_of};
ghost use Rattle.pcm_help.specs.Window.{IsWindow, dots_if, lead_of, mark_line, pointed, shown_line};
ghost use Rattle.pcm_help.specs.declared.window.Window.{Window as WindowOf};

use crate::piece::Piece;
use crate::shown::{columns, push_shown, width};
use pcm_text::push_text;
use std::alloc::AllocError;

/// The most columns of a line that are shown.
const COLUMNS: usize = 72;

/// The most columns before the piece at fault, in a line that is cut.
const BEFORE: usize = 36;

/// The bytes of a line that are shown, from one offset to another.
#[derive(Clone, Copy, Debug, PartialEq, Eq)]
pub(crate) struct Window {
    pub from: usize,
    pub to: usize,
}

/// How many bytes from the front fit in so many columns.
fn fitting(bytes: &[u8], room: usize) -> usize
    ensures within { result ≤ length bytes.now }
    ensures fits { columns_of (take result bytes.now) ≤ room }
    ensures most { result < length bytes.now → room < columns_of (take (result + 1) bytes.now) }
{
    let mut used = 0;
    let mut i = 0;
    'bytes: while i < bytes.len() {
        let more = width(bytes[i]);
        if more > room - used {
            return i;
        }
        used += more;
        i += 1;
    }
    i
}

/// From where on the last bytes fit in so many columns.
fn fitting_from(bytes: &[u8], room: usize) -> usize
    ensures within { result ≤ length bytes.now }
    ensures fits { columns_of (drop result bytes.now) ≤ room }
{
    let mut used = 0;
    let mut from = bytes.len();
    'bytes: while from > 0 {
        let more = width(bytes[from - 1]);
        if more > room - used {
            return from;
        }
        used += more;
        from -= 1;
    }
    from
}

/// The bytes that are shown of a line whose fault is at this offset: all, or those round the fault.
pub(crate) fn window_round(line: &[u8], at: usize) -> Window
    requires { at ≤ length line.now }
    ensures { IsWindow line.now at result }
{
    if fitting(line, COLUMNS) == line.len() {
        return Window {
            from: 0,
            to: line.len(),
        };
    }
    let from = fitting_from(&line[..at], BEFORE);
    let to = from + fitting(&line[from..], COLUMNS);
    Window { from, to }
}

fn push_times(text: &mut Vec<u8>, byte: u8, count: usize) -> Result<(), AllocError>
    ensures { OnOk result (text.new.items ≡ text.old.items ++ replicate count byte) }
{
    'times: for _ in 0..count {
        text.push(byte)?;
    }
    Ok(())
}

fn push_dots(text: &mut Vec<u8>, more: bool) -> Result<(), AllocError>
    ensures { OnOk result (text.new.items ≡ text.old.items ++ dots_if more) }
{
    if more {
        push_text(text, b"...")
    } else {
        Ok(())
    }
}

// Puts these bytes of the line behind the text, with dots for what is left out.
fn push_part(text: &mut Vec<u8>, line: &[u8], part: Window) -> Result<(), AllocError>
    requires order { part.from ≤ part.to }
    requires within { part.to ≤ length line.now }
    ensures { OnOk result (text.new.items ≡ text.old.items ++ shown_line line.now part) }
{
    push_text(text, b"    ")?;
    push_dots(text, part.from > 0)?;
    push_shown(text, &line[part.from..part.to])?;
    push_dots(text, part.to < line.len())?;
    push_text(text, b"\n")
}

// How many columns stand before the bytes that are shown.
fn lead(part: Window) -> usize
    ensures value { result ≡ lead_of part }
    ensures few { result ≤ 7 }
{
    if part.from > 0 { 7 } else { 4 }
}

// Puts the mark under the piece behind the text, below these bytes of the line.
fn push_mark(text: &mut Vec<u8>, line: &[u8], part: Window, piece: Piece) -> Result<(), AllocError>
    requires before { part.from ≤ piece.at }
    requires behind { piece.at ≤ part.to }
    requires order { piece.at ≤ piece.end }
    requires within { part.to ≤ length line.now }
    requires few { length line.now ≤ 1_048_576 }
    ensures { OnOk result (text.new.items ≡ text.old.items ++ mark_line line.now part piece.at piece.end) }
{
    let before = columns(&line[part.from..piece.at]);
    let under = columns(&line[piece.at..piece.end.min(part.to)]);
    push_times(text, b' ', lead(part) + before)?;
    push_times(text, b'^', under.max(1))?;
    push_text(text, b"\n")
}

/// Puts the line behind the text, as far as it is shown, and below it a mark under the piece.
pub(crate) fn push_pointed(text: &mut Vec<u8>, line: &[u8], piece: Piece) -> Result<(), AllocError>
    requires order { piece.at ≤ piece.end }
    requires within { piece.end ≤ length line.now }
    requires few { length line.now ≤ 1_048_576 }
    ensures { OnOk result ((w : WindowOf) × IsWindow line.now piece.at w × (text.new.items ≡ text.old.items ++ pointed line.now w piece.at piece.end)) }
{
    let part = window_round(line, piece.at);
    push_part(text, line, part)?;
    push_mark(text, line, part, piece)
}
