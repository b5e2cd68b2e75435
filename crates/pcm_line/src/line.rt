// Lines as values.
use pcm_base::{Bytes, Dir, Event, Model, Name, Space, SubId};

/// What a line says. This project's own.
#[derive(Drop)]
pub enum Line {
    /// The LONG_MAX of the session (`LONG_MAX` of the kernel's word size).
    LongMax(u64),
    /// Declares a substream, its card's model and its direction.
    Card(SubId, Model, Dir),
    /// An event of the core. The bytes, of a Write, a Store or a Give, are whole frames in order.
    Event(Event, Bytes),
    /// Gives a capture card the frames of a file of the shelf.
    Feed(SubId, Name),
    /// Stores the frames that a playback card took as a file of the shelf.
    Save(SubId, Name),
    /// Asks for the part of a space that a model allows.
    Space(Model, Space),
    /// In a live plan: the frames of each beat, and the count of beats.
    Beat(SubId, u64, u64),
    /// In a live plan: the workers start here.
    Threads,
    /// In a live plan: the workers have ended here.
    Join,
    /// The version of the script's language.
    Version(u64),
    /// Gives the second, a capture card, what the first, a playback card, took.
    Carry(SubId, SubId),
    /// In a live plan: a cable from the first, a playback card, to the second, a capture card.
    Wire(SubId, SubId),
}
