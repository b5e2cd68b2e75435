//! What stands behind the locks of a floor, but for the group: a rec with its log and its seat, and a pass.
//!
//! It stands on `pcm_base` and `floor_rule`. All of it is this project's own.
#![tactic(auto)]

mod calling;
mod name;
mod pass;
mod rec;
#[cfg(test)]
mod tests;

pub use calling::{Linked, call_on, full_page, link_on};
pub use name::FloorName;
pub use pass::{Caller, Pass};
pub use rec::Rec;
