// Calls in progress, as the world keeps them.
ghost use Rattle.std.specs.Prelude.{◌≡◌, Some};
ghost use Rattle.pcm_world.specs.Bytes.{layout_begun};
ghost use Rattle.pcm_world.specs.Shown.{slot_bytes};

use pcm_base::{Call, Layout, SubId};
use std::alloc::Global;
use std::mem::{replace, swap};

/// A call in progress: its substream, how the bytes lie that it reads, and its bytes: those that it handed in, or those that
/// it reads, which begin with the frames that it has read.
#[derive(Drop)]
pub(crate) struct Kept {
    pub(crate) sub: SubId,
    pub(crate) layout: Option<Layout>,
    pub(crate) bytes: Vec<u8>,
}

impl Kept {
    /// Room for the first call that begins.
    pub(crate) fn new(alloc: Global) -> Kept {
        Kept {
            sub: SubId(0),
            layout: None,
            bytes: Vec::new(alloc),
        }
    }

    /// The call with its bytes. What stays has none.
    pub(crate) fn take(&mut self) -> Kept
        ensures { result ≡ self.old }
    {
        let none = Vec::new(*self.bytes.allocator());
        Kept {
            sub: self.sub,
            layout: self.layout,
            bytes: replace(&mut self.bytes, none),
        }
    }
}

/// Puts the bytes in the place of a client's result, whose memory takes theirs.
pub(crate) fn put_result(slot: &mut Option<Vec<u8>>, bytes: &mut Vec<u8>)
    ensures { slot_bytes (Some slot.new) ≡ bytes.old.items }
{
    match slot {
        Some(former) => swap(former, bytes),
        None => {
            let none = Vec::new(*bytes.allocator());
            *slot = Some(replace(bytes, none));
        }
    }
}

/// How the bytes lie that a call reads; None for one that reads none.
pub(crate) fn layout_read(call: Call) -> Option<Layout>
    ensures { result ≡ layout_begun call }
{
    match call {
        Call::Read(layout, _, _) => Some(layout),
        Call::Load(_, _) => Some(Layout::Interleaved),
        _ => None,
    }
}
