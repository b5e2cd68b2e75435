// What a call on a room answers.
use crate::recording::Receipt;
use pcm_base::{Reply, SubId};

/// What a call on a room answers: the reply, where the entry of the call stands, and the clients that it marked awake, client
/// i as bit i; or that the log of a member takes no more entries, with the count of them; or that there is no memory.
#[derive(Clone, Copy, Debug, PartialEq, Eq)]
pub enum Answer {
    Done {
        reply: Reply,
        receipt: Receipt,
        woken: u16,
    },
    LogFull(SubId, u32),
    Memory,
}
