//! Lines of scripts and of plans, read and printed.
//!
//! A line is pieces with single spaces between them. The first piece, a keyword, decides the form: which kinds of pieces
//! follow, and what the line means. Every value has exactly one spelling, so a line has one too. What the bytes of a line
//! are, and which fault other bytes have, stands in `specs/Grammar`, which lines can be said in `specs/Sayable`, and which
//! a script passes over in `specs/Skipped`.
//!
//! It stands on `pcm_base` for the values. The language is this project's own; its words are those of ALSA.
#![tactic(auto)]

mod area;
#[cfg(test)]
mod cut_tests;
mod error;
mod form;
mod hex;
mod keyword;
mod kinds;
mod laws;
mod line;
mod piece_kind;
#[cfg(test)]
mod piece_tests;
mod pieces;
mod print;
mod read;
mod skipped;
#[cfg(test)]
mod tests;
mod typed;
mod words;

pub use area::write_before;
pub use error::LineError;
pub use keyword::Keyword;
pub use laws::{one_answer, one_spelling, sayable_lines};
pub use line::Line;
pub use piece_kind::PieceKind;
pub use print::{print_line, push_line};
pub use read::read_line;
pub use skipped::is_skipped;
