//! The logs of a live run as text: a line for each entry, of which the front is the line of a script, and the answer that
//! of a transcript.
//!
//! It stands on `floor_rule` for the entries, on `pcm_line` for lines, on `pcm_text` for answers and names, and on `pcm_io`
//! for where the text goes. The text is this project's own.
#![tactic(auto)]

mod entry;
mod event;
mod joint;
mod log;
#[cfg(test)]
mod tests;

pub use entry::push_entry;
pub use log::{LogError, LogOf, write_log, write_logs};
