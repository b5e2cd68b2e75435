//! What a person at a terminal is told beside a fault: the forms of the commands, the line at fault with a mark under the
//! piece that is wrong, what may stand there, the file and the limit.
//!
//! A source, a sink and a shelf remember for it what went by, and pass on everything else. It stands on `pcm_io` for these,
//! on `pcm_line` for the forms, the words and the faults of lines, and on `pcm_text` for the statuses. Its source is this
//! project's own.
#![tactic(auto)]

mod answered;
mod bad_line;
mod command;
mod file;
mod find;
mod form;
mod help;
mod laws;
mod limit;
mod misplaced;
mod odd;
mod operand;
mod piece;
mod recent;
mod sentence;
mod shelf;
mod shown;
mod sink;
mod source;
#[cfg(test)]
mod tests;
mod usage;
mod window;

pub use answered::Answered;
pub use command::Command;
pub use help::{Seen, help_text};
pub use laws::leading_number;
pub use recent::{KEPT, Recent, first_line};
pub use shelf::{Asked, RememberingShelf};
pub use sink::RememberingSink;
pub use source::RememberingSource;
