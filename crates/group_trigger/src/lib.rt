//! An act over all members of a group: every member changes, or none does (`snd_pcm_action_group` of `pcm_native.c`).
//!
//! It stands on `pcm_stream`, whose substreams say what each member answers, is asked and becomes. What the members say is
//! told as votes, which are this project's own.
#![tactic(auto)]

mod action;
#[cfg(test)]
mod tests;
mod votes;

pub use action::act;
