//! The workers of a live run: a client that makes the calls of its plan, sleeps and is woken, and a card that moves frames and
//! interrupts.
//!
//! A worker stands on what a floor tells of the pass of a call, and on no more: `Calls` and `Links` say that. What it has called
//! once it ends, and which bytes each call was handed, is defined in `specs/Called`, `specs/Runs` and `specs/Beats`. All of it is
//! this project's own.
#![tactic(auto)]

mod beats;
mod calls;
mod client;
mod crew;
mod gate;
mod handed;
mod made;
mod on_floor;
mod site;
#[cfg(test)]
mod tests;

pub use beats::{Beats, run_card};
pub use calls::{Calls, Links};
pub use client::run_client;
pub use crew::{Crew, Stop};
pub use gate::{FreeGate, Gate};
pub use handed::lent;
pub use made::send;
pub use site::Site;
