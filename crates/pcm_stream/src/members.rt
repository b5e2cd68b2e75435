// The members of a group: substreams, each with its number and the calls in progress on it.
ghost use Rattle.std.specs.Prelude.{◌≡◌, ◌<◌, ◌≤◌, ◌++◌, ◌∷◌, [], Some, length, remove, slice_get, vec_capacity, vec_len, IfOk};

use crate::substream::Substream;
use pcm_base::{Card, SubId};
use sleepers::Sleepers;
use std::alloc::{AllocError, Global};

/// A substream in a group, with its number and the calls in progress on it (`struct snd_pcm_substream` with its link and
/// its wait queues).
#[derive(Drop)]
pub struct Member<C: Card> {
    pub sub: SubId,
    pub stream: Substream<C>,
    pub sleepers: Sleepers,
}

/// Up to 16 members in link order (the list of `struct snd_pcm_group`). Contracts see the list, as `specs/Members.antt`
/// says. Only `new` takes memory. This project's own.
#[derive(Drop)]
pub struct Members<C: Card> {
    items: Vec<Member<C>>,
    ghost few: { vec_len items ≤ 16 },
    ghost room: { 16 ≤ vec_capacity items },
}

impl<C: Card> Members<C> {
    ghost use Rattle.std.specs.Borrow.{sem};
    ghost use Rattle.pcm_stream.specs.Members.{members_of, LendsMember};

    /// No member, and room for 16.
    pub fn new(alloc: Global) -> Result<Members<C>, AllocError>
        ensures { IfOk result (λ members. members_of members ≡ []) }
    {
        Ok(Members {
            items: Vec::with_capacity(alloc, 16)?,
        })
    }

    /// The count of members.
    pub fn len(&self) -> usize
        ensures value { result ≡ length (members_of self.now) }
        ensures bound { result ≤ 16 }
    {
        self.items.len()
    }

    /// The member at a place.
    pub fn at(&self, i: usize) -> &Member<C>
        requires { i < length (members_of self.now) }
        ensures { slice_get (members_of self.now) i ≡ Some result.now }
    {
        &self.items[i]
    }

    /// The member at a place, to be changed.
    pub fn at_mut(&mut self, i: usize) -> &mut Member<C>
        requires { i < length (members_of self.old) }
        ensures* writes_back { sem 𝓛 (LendsMember C.row C.Card self.entry i result) }
        ensures value { slice_get (members_of self.old) i ≡ Some result.now }
    {
        &mut self.items[i]
    }

    /// Puts a member behind the others.
    pub fn add(&mut self, member: Member<C>)
        requires { length (members_of self.old) < 16 }
        ensures { members_of self.new ≡ members_of self.old ++ member ∷ [] }
    {
        self.items.push_reserved(member);
    }

    /// Takes a member out. The others keep their order.
    pub fn take(&mut self, i: usize) -> Member<C>
        requires { i < length (members_of self.old) }
        ensures taken { slice_get (members_of self.old) i ≡ Some result }
        ensures others { members_of self.new ≡ remove (members_of self.old) i }
    {
        self.items.remove(i)
    }
}
