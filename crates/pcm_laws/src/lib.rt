//! Laws over the model of the PCM layer, for the crates that stand on it: what a ring shows, what shown positions tell,
//! how a transfer goes turn by turn, how a group's step is made of its members' own, that streams stay sound, and that who
//! sleeps may wait. Each function here is such a law: it does nothing, and its contract is the law.
//!
//! They stand on the definitions of `pcm_base`. The rules are those of the kernel's PCM core (`pcm_native.c`,
//! `pcm_lib.c`); the statements are this project's own.
#![tactic(auto)]

pub mod pointer;
pub mod ring;
pub mod sound;
pub mod step;
pub mod transfer;
pub mod waiting;
