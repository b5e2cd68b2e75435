//! The program's call: a command's words and a script in, the command's answers and stored files out, and a status that
//! names what cut it short. `run` executes a script over sixteen substreams, `refine` answers space lines, `play` and
//! `capture` take a WAV file through a card into another, and `gen` runs a generated script.
//!
//! It stands on `pcm_line` for the lines, `pcm_world` for the steps of a world of substreams (`pcm_stream`) over emulated cards
//! of `card_emul`, `wav_file` for the files that a script stores and feeds, `loop_card` for what is still to be carried,
//! `hw_params` for the least box, `play_record` for the devices, `pcm_gen` for the generated script, `pcm_text` for the
//! transcript and the statuses, and `pcm_io` for the outside. Its source is this project's own; what each event does is that of the kernel's `pcm_native.c` and `pcm_lib.c`.
#![tactic(auto)]

mod built;
mod carry;
mod command;
mod end;
mod event;
#[cfg(test)]
mod fault_tests;
mod feed;
mod generated;
mod give;
mod laws;
mod refine;
mod request;
mod save;
mod script;
mod session;
mod sound;
#[cfg(test)]
mod sound_tests;
#[cfg(test)]
mod tests;
mod told;
mod top;
#[cfg(test)]
mod worked_tests;

pub use command::Command;
pub use end::End;
pub use laws::{one_front, one_output, some_output};
pub use request::Request;
pub use top::pcm_main;
