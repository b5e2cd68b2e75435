// A plan that was read.
use pcm_base::{Dir, Model};
use pcm_line::Line;

/// The plan of a live run. This project's own.
#[derive(Drop)]
pub struct Plan {
    /// LONG_MAX of the session (`LONG_MAX` of the kernel's word size).
    pub long_max: u64,
    /// The model and the direction of each card, that of s0 first.
    pub cards: Vec<(Model, Dir)>,
    /// The setup, in order, without its `long` and `card` lines.
    pub setup: Vec<Line>,
    /// The calls of each of sixteen clients behind `threads`, in order.
    pub clients: Vec<Vec<Line>>,
    /// The `beat` lines, in order.
    pub beats: Vec<Line>,
    /// The `save` lines, in order.
    pub saves: Vec<Line>,
}
