// A source and a sink in memory, which fail at the calls that they were told.
ghost use Rattle.std.specs.Prelude.{◌≡◌, ◌+◌, ◌<◌, ◌≤◌, ◌⊎◌, ◌↔◌, Some, [], Contains, IfOk, IsErr, OnErr, length, min};
ghost use Rattle.std.specs.Io.{ReadsAtMost, WritesAtMost};
ghost use Rattle.std.specs.Io.KnownBytes.{ReadConsumes, WriteAppends};
ghost use Rattle.pcm_base.specs.Causes.{HasCause};
ghost use Rattle.pcm_io.specs.Memory.{one_more};

use crate::{Sink, Source};
use pcm_base::Failed;
use std::alloc::Global;
use std::marker::Model;

/// A source over bytes in memory. Contracts see what is left, the numbers of the calls that fail, the most bytes of one
/// read, and the counts of calls and of faults; each count stays at its last value.
#[derive(Drop)]
pub struct MemSource {
    bytes: Vec<u8>,
    at: usize,
    failing: Vec<u64>,
    piece: usize,
    calls: u64,
    faults: u64,
}

impl Model for MemSource {
    ghost use Rattle.std.specs.Prelude.{◌≤◌, vec_len, drop};
    ghost use Rattle.pcm_io.specs.Memory.{SourceState};

    ghost Value = { SourceState };

    ghost view = { λ s. record { left = drop s.at s.bytes.items; failing = s.failing.items; piece = s.piece; calls = s.calls; faults = s.faults } };

    ghost invariant = { λ s. (s.at ≤ vec_len s.bytes) × (1 ≤ s.piece) };
}

impl MemSource {
    /// A source of these bytes. It fails at the calls with the numbers in `failing`, counted from 1, and a read gives
    /// `piece` bytes at most.
    pub fn new(bytes: Vec<u8>, failing: Vec<u64>, piece: usize) -> MemSource
        requires { 1 ≤ piece }
        ensures { result ≡ record { left = bytes.items; failing = failing.items; piece = piece; calls = 0; faults = 0 } }
    {
        MemSource {
            bytes,
            at: 0,
            failing,
            piece,
            calls: 0,
            faults: 0,
        }
    }
}

impl Source for MemSource {
    ghost left = { λ s. Some s.left };

    ghost faults = { λ s. s.faults };

    fn read(&mut self, into: &mut [u8]) -> Result<usize, Failed>
        ensures bound { ReadsAtMost result into.new }
        ensures bytes { ReadConsumes (Some self.old.left) (Some self.new.left) result into.new }
        ensures cause { HasCause self.old.faults self.new.faults result }

        // Exactly the listed calls fail, and what a call that does not fail gives.
        ensures listed { IsErr result ↔ Contains self.old.failing (one_more self.old.calls) }
        ensures count { IfOk result (λ n. n ≡ min (min (length self.old.left) (length into.old)) self.old.piece) }
        ensures counted { OnErr result (self.new.faults ≡ one_more self.old.faults) }
        ensures others { self.new ≡ record self.old { left = self.new.left; calls = one_more self.old.calls; faults = self.new.faults } }
    {
        self.calls = self.calls.saturating_add(1);
        if self.failing.contains(&self.calls) {
            self.faults = self.faults.saturating_add(1);
            return Err(Failed);
        }
        let rest = &self.bytes[self.at..];
        let count = rest.len().min(into.len()).min(self.piece);
        into[..count].copy_from_slice(&rest[..count]);
        self.at += count;
        Ok(count)
    }
}

/// A sink that keeps in memory what was written. Contracts see that, the bytes for which it has memory, the numbers of
/// the calls that fail, and the counts of calls and of faults; each count stays at its last value.
#[derive(Drop)]
pub struct MemSink {
    bytes: Vec<u8>,
    failing: Vec<u64>,
    calls: u64,
    faults: u64,
}

impl Model for MemSink {
    ghost use Rattle.std.specs.Prelude.{vec_capacity};
    ghost use Rattle.pcm_io.specs.Memory.{SinkState};

    ghost Value = { SinkState };

    ghost view = { λ s. record { written = s.bytes.items; room = vec_capacity s.bytes; failing = s.failing.items; calls = s.calls; faults = s.faults } };
}

impl MemSink {
    /// A sink that holds nothing yet, and takes its memory from `alloc`. It fails at the calls with the numbers in
    /// `failing`, counted from 1.
    pub fn new(alloc: Global, failing: Vec<u64>) -> MemSink
        ensures { result ≡ record { written = []; room = 0; failing = failing.items; calls = 0; faults = 0 } }
    {
        MemSink {
            bytes: Vec::new(alloc),
            failing,
            calls: 0,
            faults: 0,
        }
    }

    /// The bytes that were written.
    pub fn bytes(&self) -> &[u8]
        ensures { result.now ≡ self.now.written }
    {
        &self.bytes
    }
}

impl Sink for MemSink {
    ghost written = { λ s. Some s.written };

    ghost faults = { λ s. s.faults };

    fn write_some(&mut self, from: &[u8]) -> Result<usize, Failed>
        ensures bound { WritesAtMost result from.now }
        ensures progress { IfOk result (λ n. 0 < length from.now → 0 < n) }
        ensures bytes { WriteAppends (Some self.old.written) (Some self.new.written) result from.now }
        ensures cause { HasCause self.old.faults self.new.faults result }

        // A listed call fails, and any other only where it has to grow; one that does not fail takes everything.
        ensures listed { Contains self.old.failing (one_more self.old.calls) → IsErr result }
        ensures grows { OnErr result (Contains self.old.failing (one_more self.old.calls) ⊎ (self.old.room < length self.old.written + length from.now)) }
        ensures all { IfOk result (λ n. n ≡ length from.now) }
        ensures room { self.old.room ≤ self.new.room }
        ensures counted { OnErr result (self.new.faults ≡ one_more self.old.faults) }
        ensures others { self.new ≡ record self.old { written = self.new.written; room = self.new.room; calls = one_more self.old.calls; faults = self.new.faults } }
    {
        self.calls = self.calls.saturating_add(1);
        if self.failing.contains(&self.calls) || self.bytes.extend_from_slice(from).is_err() {
            self.faults = self.faults.saturating_add(1);
            return Err(Failed);
        }
        Ok(from.len())
    }
}
