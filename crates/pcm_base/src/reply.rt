// What an event answers.
use crate::{ClientId, Errno, State};

/// What a client sees of a substream: the two pointers below the boundary, and the frames that it may move, all in
/// frames (`struct snd_pcm_mmap_status` and `snd_pcm_mmap_control`).
#[derive(Clone, Copy, Debug, PartialEq, Eq)]
pub struct Page {
    pub state: State,
    pub hw: u64,
    pub appl: u64,
    pub avail: u64,
}

/// What a poll tells (`snd_pcm_poll`).
#[derive(Clone, Copy, Debug, PartialEq, Eq)]
pub enum Ready {
    No,
    Yes,
    Error,
}

/// The answer of an event. Counts are in frames, but `Limit` tells bytes. `Late` tells how many frames may still move
/// before an interrupt.
#[derive(Clone, Copy, Debug, PartialEq, Eq)]
pub enum Reply {
    Ok,
    Frames(u64),
    Moved(u64),
    Delay(i64),
    Ptrs(Page),
    Poll(Ready),
    Asleep,
    Err(Errno),
    Late(u64),
    Idle,
    Limit(u64),
    Busy(ClientId),
    Memory,
}

/// What a step tells: its answer, the state of the substream that it names, and the clients that it marked awake,
/// client i as bit i.
#[derive(Clone, Copy, Debug, PartialEq, Eq)]
pub struct Told {
    pub reply: Reply,
    pub state: Option<State>,
    pub woken: u16,
}
