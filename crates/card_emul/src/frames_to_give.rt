// The frames that a capture card has still to give.
ghost use Rattle.std.specs.Prelude.{◌≡◌, [], length, drop, OnOk, OnErr};
ghost use Rattle.pcm_base.specs.CardFacts.{given_bytes};

use std::alloc::{AllocError, Global};
use std::marker::Model;

/// Bytes that are given once each, in order. What was given stays in front of `start` until the next `replace`, so that
/// nothing is ever shifted. Contracts see those that are left.
#[derive(Drop)]
pub(crate) struct FramesToGive {
    alloc: Global,
    bytes: Vec<u8>,
    start: usize,
}

impl Model for FramesToGive {
    ghost use Rattle.std.specs.Prelude.{◌≤◌, List, ℕ, vec_len, drop};

    ghost Value = { List ℕ };

    ghost view = { λ q. drop q.start q.bytes.items };

    ghost invariant = { λ q. q.start ≤ vec_len q.bytes };
}

impl FramesToGive {
    /// Nothing to give.
    pub(crate) fn new(alloc: Global) -> FramesToGive
        ensures { result ≡ [] }
    {
        FramesToGive {
            alloc,
            bytes: Vec::new(alloc),
            start: 0,
        }
    }

    /// Forgets what is left.
    pub(crate) fn clear(&mut self)
        ensures { self.new ≡ [] }
    {
        self.bytes.clear();
        self.start = 0;
    }

    /// Replaces what is left by a copy of these bytes. An error changes nothing.
    pub(crate) fn replace(&mut self, bytes: &[u8]) -> Result<(), AllocError>
        ensures ok { OnOk result (self.new ≡ bytes.now) }
        ensures err { OnErr result (self.new ≡ self.old) }
    {
        self.bytes = bytes.to_vec(self.alloc)?;
        self.start = 0;
        Ok(())
    }

    /// Fills `out` with the next bytes, and with zeros past their end.
    pub(crate) fn give_into(&mut self, out: &mut [u8])
        ensures given { out.new ≡ given_bytes (length out.old) self.old }
        ensures left { self.new ≡ drop (length out.old) self.old }
    {
        let left = &self.bytes[self.start..];
        let count = out.len().min(left.len());
        let (given, past) = out.split_at_mut(count);
        given.copy_from_slice(&left[..count]);
        past.fill(0);
        self.start += count;
    }
}
