// The last bytes that went by, and where among all of them they stand.
ghost use Rattle.std.specs.Prelude.{◌≡◌, ◌≤◌, ◌<◌, ◌+◌, ◌*◌, ◌-◌, ◌⊎◌, ◌↔◌, ◌^◌, ◌++◌, ℕ, List, [], true, IfOk, IfSome, IfNone, IsSome, length, min, drop, vec_capacity};
ghost use Rattle.pcm_help.specs.Lines.{begins_after, feeds_in};
ghost use Rattle.pcm_help.specs.Recent.{Holds, IsBehind, IsFrom, IsFirstLine, first_whole, last_begun};

use crate::find::first_of;
use std::alloc::{AllocError, Global};
use std::marker::Model;

/// So many of the last bytes are kept, or all where there are fewer.
pub const KEPT: usize = 524_288;

/// The most bytes that are kept.
pub const ROOM: usize = 1_048_576;

// How many of so many bytes go, the oldest first.
fn over(all: usize) -> usize
    ensures few { result ≤ all }
    ensures room { all - result ≤ ROOM }
    ensures kept { min all KEPT ≤ all - result }
{
    if all <= ROOM { 0 } else { all - KEPT }
}

// How many line feeds have gone by, after these bytes too.
fn feeds_after(feeds: u64, gone: &[u8]) -> u64
    ensures { feeds + length gone.now < 2 ^ 64 → result ≡ feeds + feeds_in gone.now }
{
    let more = gone.iter().filter(|b| **b == b'\n').count();
    feeds.saturating_add(more as u64)
}

// Whether a line begins behind these bytes, where one begins before them or not.
fn begins_behind(begins: bool, gone: &[u8]) -> bool
    ensures { result ≡ begins_after begins gone.now }
{
    match gone {
        [] => begins,
        [.., last] => *last == b'\n',
    }
}

fn drop_front(bytes: &mut Vec<u8>, count: usize)
    requires { count ≤ length bytes.old.items }
    ensures items { bytes.new.items ≡ drop count bytes.old.items }
    ensures room { vec_capacity bytes.new ≡ vec_capacity bytes.old }
{
    if count == 0 {
        return;
    }
    let rest = bytes.len() - count;
    bytes.copy_within(count.., 0);
    bytes.truncate(rest);
}

// What stands behind so many line feeds; None where there are fewer.
fn behind_feeds(bytes: &[u8], feeds: u64) -> Option<&[u8]>
    ensures some { IfSome result (λ rest. IsBehind feeds bytes.now rest.now) }
    ensures none { IfNone result (feeds_in bytes.now < feeds) }
{
    let mut rest = bytes;
    'feeds: for _ in 0..feeds {
        match first_of(b'\n', rest) {
            Some(at) => rest = &rest[at + 1..],
            None => return None,
        }
    }
    Some(rest)
}

/// The first line of these bytes, without its line feed. This project's own.
pub fn first_line(bytes: &[u8]) -> &[u8]
    ensures { IsFirstLine bytes.now result.now }
{
    match first_of(b'\n', bytes) {
        Some(at) => &bytes[..at],
        None => bytes,
    }
}

/// The last bytes that went by, the count of the line feeds before them, and whether they begin a line. Contracts see these
/// three. This project's own.
#[derive(Drop)]
pub struct Recent {
    bytes: Vec<u8>,
    feeds: u64,
    begins: bool,
}

impl Model for Recent {
    ghost use Rattle.std.specs.Prelude.{◌≤◌, vec_capacity, vec_len};
    ghost use Rattle.pcm_help.specs.Recent.{Kept};
    ghost use Rattle.pcm_help.specs.declared.recent.TheConstants.{ROOM};

    ghost Value = { Kept };

    ghost view = { λ r. record { bytes = r.bytes.items; feeds = r.feeds; begins = r.begins } };

    ghost invariant = { λ r. (vec_len r.bytes ≤ ROOM) × (ROOM ≤ vec_capacity r.bytes) };
}

impl Recent {
    /// Nothing has gone by yet. All the memory is taken here.
    pub fn new(alloc: Global) -> Result<Recent, AllocError>
        ensures { IfOk result (λ recent. recent ≡ record { bytes = []; feeds = 0; begins = true }) }
    {
        Ok(Recent {
            bytes: Vec::with_capacity(alloc, ROOM)?,
            feeds: 0,
            begins: true,
        })
    }

    // The first of the bytes kept go.
    fn forget(&mut self, count: usize)
        requires { count ≤ length self.old.bytes }
        ensures bytes { self.new.bytes ≡ drop count self.old.bytes }
        ensures holds { (all : List ℕ) → length all < 2 ^ 64 → Holds self.old all → Holds self.new all }
    {
        let gone = &self.bytes[..count];
        let feeds = feeds_after(self.feeds, gone);
        let begins = begins_behind(self.begins, gone);
        self.feeds = feeds;
        self.begins = begins;
        drop_front(&mut self.bytes, count);
    }

    // These go by, and none is kept.
    fn pass(&mut self, bytes: &[u8])
        requires { (bytes.now ≡ []) ⊎ (self.old.bytes ≡ []) }
        ensures bytes { self.new.bytes ≡ self.old.bytes }
        ensures holds { (all : List ℕ) → length all + length bytes.now < 2 ^ 64 → Holds self.old all → Holds self.new (all ++ bytes.now) }
    {
        self.feeds = feeds_after(self.feeds, bytes);
        self.begins = begins_behind(self.begins, bytes);
    }

    // These go by and are kept.
    fn keep(&mut self, bytes: &[u8])
        requires { length self.old.bytes + length bytes.now ≤ ROOM }
        ensures bytes { self.new.bytes ≡ self.old.bytes ++ bytes.now }
        ensures holds { (all : List ℕ) → Holds self.old all → Holds self.new (all ++ bytes.now) }
    {
        match self.bytes.extend_from_slice(bytes) {
            Ok(()) => {}
            Err(_) => unreachable!(),
        }
    }

    /// These bytes go by, behind all before. It takes no memory.
    pub fn push(&mut self, bytes: &[u8])
        ensures holds { (all : List ℕ) → length all + length bytes.now < 2 ^ 64 → Holds self.old all → Holds self.new (all ++ bytes.now) }
        ensures kept { min (length self.old.bytes + length bytes.now) KEPT ≤ length self.new.bytes }
    {
        let have = self.bytes.len();
        let over = over(have + bytes.len());
        let own = over.min(have);
        let (passed, kept) = bytes.split_at(over - own);
        self.forget(own);
        self.pass(passed);
        self.keep(kept);
    }

    /// The bytes from the begin of the line of this number on, counted from 1; None exactly where its begin is not kept or
    /// has not come.
    pub fn from_line(&self, number: u64) -> Option<&[u8]>
        ensures line { (all : List ℕ) → Holds self.now all → IfSome result (λ rest. IsFrom number all rest.now) }
        ensures found { IsSome result ↔ ((first_whole self.now ≤ number) × (number ≤ last_begun self.now)) }
        ensures few { IfSome result (λ rest. length rest.now ≤ ROOM) }
    {
        let skipped = number.checked_sub(1)?.checked_sub(self.feeds)?;
        if skipped == 0 && !self.begins {
            return None;
        }
        behind_feeds(&self.bytes, skipped)
    }
}
