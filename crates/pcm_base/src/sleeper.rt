// Calls in progress.
use crate::{ClientId, Layout, Mode};

/// A transfer on its way: `rest` frames are still to move, `moved` have moved already.
#[derive(Clone, Copy, Debug, PartialEq, Eq)]
pub struct Xfer {
    pub writing: bool,
    pub layout: Layout,
    pub mode: Mode,
    pub rest: u64,
    pub moved: u64,
}

/// What a call in progress waits for: so many frames to be available for a transfer, or the end of a drain.
#[derive(Clone, Copy, Debug, PartialEq, Eq)]
pub enum Task {
    Transfer(Xfer, u64),
    Drain,
}

/// A call in progress. It is awake once it may no longer wait.
#[derive(Clone, Copy, Debug, PartialEq, Eq)]
pub struct Sleeper {
    pub client: ClientId,
    pub asleep: bool,
    pub task: Task,
}
