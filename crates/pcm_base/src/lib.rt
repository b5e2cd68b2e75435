//! The words of the PCM middle layer: the types that every crate above shares, the trait of an emulated card,
//! and, in `specs/model`, the definitions that every contract above is stated in.
//!
//! It stands on nothing of this project. The names are those of the kernel's `include/uapi/sound/asound.h` and
//! `include/sound/pcm.h` where it has them.
#![tactic(auto)]

mod act;
mod bytes;
mod call;
mod card;
mod config;
mod examples;
mod format;
mod ids;
mod name;
mod reply;
mod sleeper;
mod state;
mod votes;

pub use act::{Act, Outcome, Trigger, Updated, Vote};
pub use bytes::Bytes;
pub use call::{Call, CallKind, Event, Layout, Mode};
pub use card::{Card, CardFailed, Failed};
pub use config::{CardModel, Config, Model, Shape, Space, Span, SwParams, boundary_of};
pub use examples::worked_examples;
pub use format::{Access, Format, width_of};
pub use ids::{ClientId, SubId};
pub use name::Name;
pub use reply::{Page, Ready, Reply, Told};
pub use sleeper::{Sleeper, Task, Xfer};
pub use state::{Dir, Errno, State};
pub use votes::{Acted, Votes};
