//! A live run: a plan is read, cards are set up, a worker for each client and each card runs at the same time, and the logs
//! of all are written.
//!
//! It stands on `live_plan` for the plan, on `live_floor` for the floor, on `live_work` for the workers, on `live_log` for
//! the logs' text, and on `wav_file` for the files that are fed and saved. All of it is this project's own.
#![tactic(auto)]

mod ending;
#[cfg(test)]
mod fault_tests;
mod files;
mod filling;
mod halt;
mod parts;
mod report;
mod run;
mod saves;
mod setup;
#[cfg(test)]
mod tests;
mod told;
mod top;
mod workers;

pub use top::live_main;
