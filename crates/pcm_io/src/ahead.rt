// What was read of a source ahead of its use.
ghost use Rattle.std.specs.Prelude.{◌≡◌, ◌≤◌, ◌<◌, [], false, length, drop, OnOk, OnErr};
ghost use Rattle.std.specs.Io.KnownBytes.{Keeps};
ghost use Rattle.pcm_base.specs.Causes.{HasCause};
ghost use Rattle.pcm_io.specs.Lines.{HasRead, HasTopped, IsDone};

use crate::Source;
use crate::reading::PIECE;
use pcm_base::Failed;
use std::marker::Model;

/// Bytes that were read of a source, in one piece, and not yet used. Contracts see them, how many more may be read, and
/// whether the source was at its end.
#[derive(Drop)]
pub(crate) struct ReadAhead {
    piece: [u8; PIECE],
    at: usize,
    end: usize,
    room: usize,
    ended: bool,
}

impl Model for ReadAhead {
    ghost use Rattle.std.specs.Prelude.{◌≤◌, take, drop};
    ghost use Rattle.pcm_io.specs.Lines.{Ahead};

    ghost Value = { Ahead };

    ghost view = { λ s. record { bytes = drop s.at (take s.end s.piece); room = s.room; ended = s.ended } };

    ghost invariant = { λ s. (s.at ≤ s.end) × (s.end ≤ 4096) };
}

impl ReadAhead {
    /// Nothing was read, and so many bytes may be.
    pub fn new(room: usize) -> ReadAhead
        ensures { result ≡ record { bytes = []; room = room; ended = false } }
    {
        ReadAhead {
            piece: [0; PIECE],
            at: 0,
            end: 0,
            room,
            ended: false,
        }
    }

    /// The bytes that were read and not used.
    pub fn bytes(&self) -> &[u8]
        ensures bytes { result.now ≡ self.now.bytes }
        ensures few { length self.now.bytes ≤ 4096 }
    {
        &self.piece[self.at..self.end]
    }

    /// How many more bytes may be read.
    pub fn room(&self) -> usize
        ensures { result ≡ self.now.room }
    {
        self.room
    }

    /// Uses the first bytes.
    pub fn skip(&mut self, count: usize)
        requires { count ≤ length self.old.bytes }
        ensures { self.new ≡ record self.old { bytes = drop count self.old.bytes } }
    {
        self.at += count;
    }

    /// Reads a piece of the source, where all that was read is used: no byte at its end, or where no more may be read.
    pub fn fill<S: Source>(&mut self, source: &mut S) -> Result<(), Failed>
        requires { self.old.bytes ≡ [] }
        ensures read { OnOk result (HasRead self.old self.new (S.left source.old) (S.left source.new) self.new.bytes) }
        ensures done { OnOk result (self.new.bytes ≡ [] → IsDone self.new) }
        ensures same { OnErr result (self.new ≡ self.old) }
        ensures failed { OnErr result ((self.old.ended ≡ false) × Keeps (S.left source.old) (S.left source.new)) }
        ensures cause { HasCause (S.faults source.old) (S.faults source.new) result }
    {
        if self.ended || self.room == 0 {
            return Ok(());
        }
        self.at = 0;
        self.end = 0;
        let most = self.room.min(PIECE);
        let count = source.read(&mut self.piece[..most])?;
        self.end = count;
        self.room -= count;
        self.ended = count == 0;
        Ok(())
    }

    /// Reads a piece of the source, where no byte is there.
    pub fn fill_empty<S: Source>(&mut self, source: &mut S) -> Result<(), Failed>
        ensures read { OnOk result (HasTopped self.old self.new (S.left source.old) (S.left source.new)) }
        ensures same { OnErr result (self.new ≡ self.old) }
        ensures failed { OnErr result ((self.old.bytes ≡ []) × (self.old.ended ≡ false) × Keeps (S.left source.old) (S.left source.new)) }
        ensures cause { HasCause (S.faults source.old) (S.faults source.new) result }
    {
        if !self.bytes().is_empty() {
            return Ok(());
        }
        self.fill(source)
    }
}
