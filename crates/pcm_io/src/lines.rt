// The lines of a source, one after another.
ghost use Rattle.std.specs.Prelude.{◌≡◌, ◌≢◌, ◌≤◌, ◌<◌, ◌+◌, ◌==◌, ◌&&◌, ◌++◌, ℕ, List, [], true, false, length, take, drop, nat_lt, IfOk, IfSome, IfNone, OnOk, OnErr, IsErrOf, MatchOption};
ghost use Rattle.pcm_base.specs.Causes.{HasCause, Rose};
ghost use Rattle.pcm_io.specs.Lines.{HasRead, IsDone, IsMore, IsNextLine, IsBroken, IsFeedAt, has_feed};
ghost use Rattle.pcm_io.specs.declared.reading.ReadEnd.{ReadEnd as End};

use crate::ahead::ReadAhead;
use crate::{ReadEnd, Source};
use memchr::memchr;
use pcm_base::Failed;
use std::alloc::Global;
use std::marker::Model;

fn first_feed(bytes: &[u8]) -> Option<usize>
    ensures { MatchOption result (has_feed bytes.now ≡ false) (λ at. (at < length bytes.now) × IsFeedAt bytes.now (take at bytes.now) (drop (at + 1) bytes.now)) }
{
    memchr(b'\n', bytes)
}

// Reads on to the next line feed, and gives its place among the bytes read ahead; the bytes of its line that were read
// before stand in `front`. None where none comes any more, and then `front` has all bytes.
fn seek_feed<S: Source>(
    ahead: &mut ReadAhead,
    front: &mut Vec<u8>,
    source: &mut S,
) -> Result<Option<usize>, ReadEnd>
    requires { front.old.items ≡ [] }
    ensures found { IfOk result (λ o. IfSome o (λ at. (at < 4096) × (at < length ahead.new.bytes) × IsFeedAt ahead.new.bytes (take at ahead.new.bytes) (drop (at + 1) ahead.new.bytes))) }
    ensures none { IfOk result (λ o. IfNone o ((ahead.new.bytes ≡ []) × IsDone ahead.new)) }
    ensures read { result ≢ Err End.Memory → (bytes : List ℕ) × HasRead ahead.old ahead.new (S.left source.old) (S.left source.new) bytes
        × (ahead.old.bytes ++ bytes ≡ front.new.items ++ ahead.new.bytes) × (has_feed front.new.items ≡ false) }
    ensures failed { IsErrOf result ReadEnd.Failed → (ahead.new.bytes ≡ []) × (ahead.old.ended ≡ false) × Rose (S.faults source.old) (S.faults source.new) }
    ensures later { S.faults source.old ≤ S.faults source.new }
    ensures kept { result ≢ Err End.Failed → S.faults source.new ≡ S.faults source.old }
{
    'pieces: loop {
        let bytes = ahead.bytes();
        if let Some(at) = first_feed(bytes) {
            return Ok(Some(at));
        }
        let Ok(()) = front.extend_from_slice(bytes) else {
            return Err(ReadEnd::Memory);
        };
        let count = bytes.len();
        ahead.skip(count);
        let Ok(()) = ahead.fill(source) else {
            return Err(ReadEnd::Failed);
        };
        if ahead.bytes().is_empty() {
            return Ok(None);
        }
    }
}

/// The lines of a source, of which it reads as many bytes as it may, in pieces of at most 4,096, and holds one line at a
/// time. A line ends at its line feed, the last one also at the end. Contracts see the line that was given last, and what is
/// read ahead behind it: the lines that were given, with their line feeds, these bytes and those that the source has left
/// are all that it had. This project's own.
#[derive(Drop)]
pub struct Lines {
    ahead: ReadAhead,
    // The front of a line that did not lie in one piece, and how many of its bytes lie in the piece.
    front: Vec<u8>,
    len: usize,
    // The bytes of the piece that were given, with a line feed behind them.
    used: usize,
}

impl Model for Lines {
    ghost use Rattle.std.specs.Prelude.{◌≡◌, ◌⊎◌, ◌≤◌, ◌++◌, [], length, take, drop};
    ghost use Rattle.pcm_io.specs.Lines.{LineState};

    ghost Value = { LineState };

    ghost view = { λ s. record { line = s.front.items ++ take s.len s.ahead.bytes; ahead = record s.ahead { bytes = drop s.used s.ahead.bytes } } };

    ghost invariant = { λ s. (s.len ≤ s.used) × (s.used ≤ length s.ahead.bytes) × ((s.front.items ≡ []) ⊎ (s.len ≡ 0)) };
}

impl Lines {
    /// No line was given yet, and as many bytes may be read as `most` says. The front of a long line takes memory from
    /// `alloc`.
    pub fn new(alloc: Global, most: usize) -> Lines
        ensures { result ≡ record { line = []; ahead = record { bytes = []; room = most; ended = false } } }
    {
        Lines {
            ahead: ReadAhead::new(most),
            front: Vec::new(alloc),
            len: 0,
            used: 0,
        }
    }

    /// The line that was given last, without its line feed. It takes no memory.
    pub fn line(&self) -> &[u8]
        ensures { result.now ≡ self.now.line }
    {
        if self.front.is_empty() {
            &self.ahead.bytes()[..self.len]
        } else {
            &self.front
        }
    }

    /// Whether all bytes that may be read were given.
    pub fn is_used_up(&self) -> bool
        ensures { result ≡ (length self.now.ahead.bytes == 0 && self.now.ahead.room == 0) }
    {
        self.ahead.bytes().len() == self.used && self.ahead.room() == 0
    }

    /// Whether another line comes; the last one is given up. It reads no more than one piece, and takes no memory.
    pub fn has_more<S: Source>(&mut self, source: &mut S) -> Result<bool, Failed>
        ensures more { OnOk result (IsMore self.old self.new (S.left source.old) (S.left source.new)) }
        ensures some { IfOk result (λ more. more ≡ nat_lt 0 (length self.new.ahead.bytes)) }
        ensures broken { OnErr result (IsBroken self.old self.new (S.left source.old) (S.left source.new)) }
        ensures cause { HasCause (S.faults source.old) (S.faults source.new) result }
    {
        self.front.clear();
        self.ahead.skip(self.used);
        self.len = 0;
        self.used = 0;
        self.ahead.fill_empty(source)?;
        Ok(!self.ahead.bytes().is_empty())
    }

    /// Goes on to the next line. After `Failed` the line is what was read of it, and after `Memory` it is not told; the next
    /// call goes on behind it.
    pub fn next_line<S: Source>(&mut self, source: &mut S) -> Result<(), ReadEnd>
        ensures line { OnOk result (IsNextLine self.old self.new (S.left source.old) (S.left source.new)) }
        ensures broken { IsErrOf result ReadEnd.Failed → IsBroken self.old self.new (S.left source.old) (S.left source.new) }
        ensures later { S.faults source.old ≤ S.faults source.new }
        ensures failed { IsErrOf result ReadEnd.Failed → Rose (S.faults source.old) (S.faults source.new) }
        ensures kept { result ≢ Err End.Failed → S.faults source.new ≡ S.faults source.old }
    {
        self.front.clear();
        self.ahead.skip(self.used);
        self.len = 0;
        self.used = 0;
        match seek_feed(&mut self.ahead, &mut self.front, source) {
            Err(e) => Err(e),
            Ok(None) => Ok(()),
            Ok(Some(at)) => {
                if self.front.is_empty() {
                    self.len = at;
                    self.used = at + 1;
                    return Ok(());
                }
                let Ok(()) = self.front.extend_from_slice(&self.ahead.bytes()[..at]) else {
                    return Err(ReadEnd::Memory);
                };
                self.used = at + 1;
                Ok(())
            }
        }
    }
}
