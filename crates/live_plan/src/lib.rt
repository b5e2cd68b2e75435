//! The plan of a live run: which cards there are, what is set up before the workers start, what each client then calls, how
//! often each card moves, and which files are stored at the end.
//!
//! A plan is read from a source and checked whole before anything of it is done. Its three parts, the setup, the workers'
//! part behind `threads` and the end behind `join`, and what may stand in each, are defined in `specs/Rules`; what a plan is,
//! and which fault other bytes have, in `specs/Plan`; what holds of every plan that was read, for those who run it, in
//! `specs/Sound`.
//!
//! It stands on `pcm_line` for the lines, on `pcm_io` for the source, and on `pcm_text` for the names of the limits. The
//! language is this project's own.
#![tactic(auto)]

mod draft;
mod error;
mod fault;
mod laws;
mod part;
mod place;
mod plan;
mod read;
#[cfg(test)]
mod tests;

pub use error::PlanError;
pub use laws::one_answer;
pub use plan::Plan;
pub use read::read_plan;
