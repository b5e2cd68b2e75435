// Why no plan was read.
use pcm_line::LineError;
use pcm_text::Which;
use thiserror::Error;

/// Why no plan was read. This project's own.
#[derive(Clone, Copy, Debug, PartialEq, Eq, Error)]
pub enum PlanError {
    /// The source could not be read.
    #[error("read failed")]
    Read,
    /// This line, counted from 1, is the first at fault. A plan that ends too early lacks the line behind its last one.
    #[error("bad line {0}: {1}")]
    BadLine(u64, LineError),
    /// The quantity has this value, above its limit: bytes of the plan, lines of the plan, or beats over all.
    #[error("limit {0:?} {1}")]
    Limit(Which, u64),
    /// There was no memory.
    #[error("out of memory")]
    Memory,
}
