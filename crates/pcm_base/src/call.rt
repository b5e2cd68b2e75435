// The calls of clients, and the events of cards.
use crate::{ClientId, Config, SubId, SwParams};

/// Whether a call may wait (a file opened without or with `O_NONBLOCK`).
#[derive(Clone, Copy, Debug, PartialEq, Eq)]
pub enum Mode {
    Block,
    NonBlock,
}

/// How the bytes of a transfer lie: frame after frame (`SNDRV_PCM_IOCTL_WRITEI_FRAMES`), or the samples of channel 0,
/// then those of channel 1 and so on (`SNDRV_PCM_IOCTL_WRITEN_FRAMES`).
#[derive(Clone, Copy, Debug, PartialEq, Eq)]
pub enum Layout {
    Interleaved,
    Planar,
}

/// The 25 calls that the error table speaks of.
#[derive(Clone, Copy, Debug, PartialEq, Eq)]
pub enum CallKind {
    HwParams,
    HwFree,
    SwParams,
    Prepare,
    Start,
    DropNow,
    Drain,
    PausePush,
    PauseRelease,
    Suspend,
    Resume,
    Xrun,
    Write,
    Read,
    Rewind,
    Forward,
    Hwsync,
    Delay,
    SyncPtr,
    Status,
    Poll,
    Map,
    Link,
    Unlink,
    Unplug,
}

/// One call on a substream, or one event of its card. Counts and offsets are in frames. `MoveBy`, `Irq`, `FailAt`, `Give`
/// and `Unplug` are the card's. The bytes of `Write`, `Store` and `Give` stand beside the call.
#[derive(Clone, Copy, Debug, PartialEq, Eq)]
pub enum Call {
    OpenSub,
    CloseSub,
    HwParams(Config),
    HwFree,
    SwParams(SwParams),
    Prepare,
    Start,
    DropNow,
    Drain(Mode),
    PausePush,
    PauseRelease,
    Suspend,
    Resume,
    Xrun,
    Write(Layout, Mode),
    Read(Layout, Mode, u64),
    Rewind(u64),
    Forward(u64),
    Hwsync,
    Delay,
    SyncPtr(u64),
    Status,
    PageNow,
    Poll,
    Map,
    Unmap,
    Store(u64),
    Load(u64, u64),
    Link(SubId),
    Unlink,
    Go,
    MoveBy(u64),
    Irq,
    FailAt(u64),
    Give,
    Unplug,
}

/// An event of the core: who calls, on which substream, what. `client` is None for an event of the card.
#[derive(Clone, Copy, Debug, PartialEq, Eq)]
pub struct Event {
    pub client: Option<ClientId>,
    pub sub: SubId,
    pub call: Call,
}
