// The piece of a line at which its fault is.
ghost use Rattle.std.specs.Prelude.{◌≡◌, ◌≤◌, ◌==◌, length, take, drop, count_by};
ghost use Rattle.pcm_help.specs.Piece.{IsPieceAt, fault_at};

use crate::find::first_of;
use pcm_line::LineError;

/// A piece of a line: from where on, and up to where.
#[derive(Clone, Copy, Debug, PartialEq, Eq)]
pub(crate) struct Piece {
    pub at: usize,
    pub end: usize,
}

impl Piece {
    /// The piece that begins at this offset, to the next space or to the end. An offset behind the line is its end.
    pub fn at(line: &[u8], at: usize) -> Piece
        ensures { IsPieceAt line.now at result }
    {
        let at = at.min(line.len());
        let rest = &line[at..];
        let end = match first_of(b' ', rest) {
            Some(len) => at + len,
            None => line.len(),
        };
        Piece { at, end }
    }

    /// The piece at which the fault is; the end of the line where one piece more is expected.
    pub fn of_fault(line: &[u8], fault: LineError) -> Piece
        ensures { IsPieceAt line.now (fault_at line.now fault) result }
    {
        match fault {
            LineError::Word(at) | LineError::Number(at) | LineError::Long(at) => {
                Piece::at(line, at)
            }
            LineError::Short | LineError::Memory => Piece::at(line, line.len()),
        }
    }
}

/// How many pieces end before this offset: those before the piece that begins there.
pub(crate) fn pieces_before(line: &[u8], at: usize) -> usize
    requires { at ≤ length line.now }
    ensures { result ≡ count_by (λ b. b == 32) (take at line.now) }
{
    line[..at].iter().filter(|b| **b == b' ').count()
}
