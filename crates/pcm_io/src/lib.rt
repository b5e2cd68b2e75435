//! The outside as the programs see it: bytes that come in, bytes that go out, and files by name; in memory, for tests
//! and proofs, and as the real things.
//!
//! It stands on `pcm_base`, for the names of files and the counts of faults. Its source is this project's own.
#![tactic(auto)]

mod ahead;
mod folder;
mod lines;
mod mem_shelf;
mod memory;
mod reading;
mod shelf;
mod sink;
mod source;
mod streams;
mod writing;

pub use folder::FolderShelf;
pub use lines::Lines;
pub use mem_shelf::MemShelf;
pub use memory::{MemSink, MemSource};
pub use reading::{ReadEnd, read_to_limit};
pub use shelf::{LOAD_LIMIT, Shelf, ShelfError};
pub use sink::Sink;
pub use source::Source;
pub use streams::{StdSink, StdSource};
pub use writing::{write_all, write_pieces, write_rest};

#[cfg(test)]
mod tests;
