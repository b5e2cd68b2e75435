// Bytes of a line that are not seen, or easily taken for something else.
use crate::command::Command;
use crate::piece::Piece;
use pcm_line::LineError;

/// What is odd in the piece at fault. This project's own.
#[derive(Clone, Copy, Debug, PartialEq, Eq)]
pub(crate) enum Odd {
    /// The line is empty.
    Empty,
    /// It begins with `#`.
    Remark,
    /// It begins with the three bytes that some editors put at the begin of a file.
    ByteOrderMark,
    CarriageReturn,
    Tab,
    FirstSpace,
    LastSpace,
    TwoSpaces,
}

// What is odd where the piece has no bytes: spaces are too many.
fn odd_gap(line: &[u8], piece: Piece) -> Odd {
    if line.is_empty() {
        Odd::Empty
    } else if piece.at == 0 {
        Odd::FirstSpace
    } else if piece.at >= line.len() {
        Odd::LastSpace
    } else {
        Odd::TwoSpaces
    }
}

/// What is odd in this piece of the line, which is at fault.
pub(crate) fn odd_in(line: &[u8], piece: Piece) -> Option<Odd> {
    let bytes = line.get(piece.at..piece.end)?;
    if bytes.is_empty() {
        Some(odd_gap(line, piece))
    } else if bytes.contains(&b'\r') {
        Some(Odd::CarriageReturn)
    } else if bytes.contains(&b'\t') {
        Some(Odd::Tab)
    } else if piece.at == 0 && bytes[0] == b'#' {
        Some(Odd::Remark)
    } else if piece.at == 0 && bytes.starts_with(b"\xef\xbb\xbf") {
        Some(Odd::ByteOrderMark)
    } else {
        None
    }
}

impl Odd {
    /// Whether it tells more than the form does: a missing piece is not odd, and `refine` has neither empty lines nor remarks.
    pub(crate) fn is_told(self, command: Command, fault: LineError) -> bool {
        match (self, command) {
            (Odd::Empty | Odd::Remark, Command::Refine) => false,
            _ => fault != LineError::Short,
        }
    }

    /// What is told of it.
    pub(crate) fn text(self) -> &'static [u8] {
        match self {
            Odd::Empty => b"a script has empty lines where its first line is `version 2`",
            Odd::Remark => b"a script has remarks where its first line is `version 2`",
            Odd::ByteOrderMark =>
                b"\\xef\\xbb\\xbf is a byte order mark; a script begins without one",
            Odd::CarriageReturn => b"\\r is a carriage return; lines end in a line feed alone",
            Odd::Tab => b"\\t is a tab; words have one space between them",
            Odd::FirstSpace => b"the line begins with a space",
            Odd::LastSpace => b"the line ends in a space",
            Odd::TwoSpaces => b"two spaces stand side by side; words have one between them",
        }
    }
}
