// The cable itself: how it is made, what is left to give, and what is in it at its end.
ghost use Rattle.std.specs.Prelude.{◌≡◌, ◌≤◌, ◌<◌, ◌++◌, [], IfOk};
ghost use Rattle.loop_card.specs.Rest.{rest_of};
ghost use Rattle.loop_card.specs.Ends.{pushed, pulled, known_free, known_bytes, capacity_of, AreOfOneSplit};

use crate::{CableIn, CableOut};
use arrayvec::ArrayVec;
use rtrb::RingBuffer;
use std::alloc::{AllocError, Global};

/// A cable from a playback card to a capture card.
pub struct Cable;

impl Cable {
    /// The bytes of `taken` without its first `moved` frames of `frame_bytes` bytes each; empty where there are not so
    /// many. No memory is taken.
    pub fn rest(taken: &[u8], frame_bytes: u64, moved: u64) -> &[u8]
        requires { 0 < frame_bytes }
        ensures { result.now ≡ rest_of taken.now frame_bytes moved }
    {
        let frames = taken.len() as u64 / frame_bytes;
        if moved > frames {
            return &[];
        }
        &taken[(moved * frame_bytes) as usize..]
    }

    /// The two ends of a cable that holds so many bytes; an error only where memory is short.
    pub fn split(alloc: Global, bytes: usize) -> Result<(CableIn, CableOut), AllocError>
        requires { 0 < bytes }
        ensures ends { IfOk result (λ r. AreOfOneSplit r.0 r.1) }
        ensures capacity { IfOk result (λ r. capacity_of r.0 ≡ bytes) }
        ensures pushed { IfOk result (λ r. pushed r.0 ≡ []) }
        ensures pulled { IfOk result (λ r. pulled r.1 ≡ []) }
        ensures free { IfOk result (λ r. known_free r.0 ≡ bytes) }
        ensures bytes { IfOk result (λ r. known_bytes r.1 ≡ []) }
    {
        let (producer, consumer) = RingBuffer::new(alloc, bytes)?;
        Ok((CableIn { producer }, CableOut { consumer }))
    }

    /// Takes the ends of a cable of at most 4,096 bytes apart, and gives the bytes that were pushed and not pulled.
    pub fn close(input: CableIn, output: CableOut) -> ArrayVec<u8, 4096>
        requires ends { AreOfOneSplit input output }
        requires most { capacity_of input ≤ 4096 }
        ensures { pulled output ++ result.items ≡ pushed input }
    {
        let CableIn { mut producer } = input;
        let CableOut { mut consumer } = output;
        let count = consumer.slots_beside(&mut producer);
        let mut bytes = [0; 4096];
        consumer.pop_partial_slice(&mut bytes[..count]);
        let mut rest = ArrayVec::new();
        match rest.try_extend_from_slice(&bytes[..count]) {
            Ok(()) => rest,
            Err(_) => unreachable!(),
        }
    }
}
