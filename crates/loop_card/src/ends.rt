// The two ends of a cable.
ghost use Rattle.std.specs.Prelude.{◌≡◌, ◌≤◌, ◌<◌, ◌+◌, ◌++◌, length, take, drop};
ghost use mathlib.Core.List.{IsPrefix};

use rtrb::{Consumer, Producer};

/// The end of a cable that bytes go into.
#[derive(Drop)]
pub struct CableIn {
    pub(crate) producer: Producer<u8>,
}

impl CableIn {
    ghost use Rattle.loop_card.specs.Ends.{pushed, known_free, IsSameIn};

    /// Puts bytes from the front of `bytes` into the cable, and answers how many went in: all of them, or as many as this
    /// end finds slots free, which the other end may free at any time. No memory is taken.
    pub fn push(&mut self, bytes: &[u8]) -> usize
        ensures same { IsSameIn self.old self.new }
        ensures count { result ≤ length bytes.now }
        ensures pushed { pushed self.new ≡ pushed self.old ++ take result bytes.now }
        ensures known { known_free self.old ≤ known_free self.new + result }
        ensures fewer { result < length bytes.now → known_free self.new ≡ 0 }
    {
        let (front, _) = self.producer.push_partial_slice(bytes);
        front.len()
    }
}

/// The end of a cable that bytes come out of.
#[derive(Drop)]
pub struct CableOut {
    pub(crate) consumer: Consumer<u8>,
}

impl CableOut {
    ghost use Rattle.loop_card.specs.Ends.{pulled, known_bytes, IsSameOut};

    /// Puts the next bytes of the cable at the front of `out`, and answers how many: as many as `out` holds, or as this
    /// end finds there, where the other end may put more at any time. The rest of `out` stays. No memory is taken.
    pub fn pull(&mut self, out: &mut [u8]) -> usize
        ensures same { IsSameOut self.old self.new }
        ensures count { result ≤ length out.old }
        ensures pulled { pulled self.new ≡ pulled self.old ++ take result out.new }
        ensures rest { drop result out.new ≡ drop result out.old }
        ensures known { IsPrefix (known_bytes self.old) (take result out.new ++ known_bytes self.new) }
        ensures fewer { result < length out.old → length (known_bytes self.new) ≡ 0 }
    {
        self.consumer.pop_partial_slice(out)
    }
}
