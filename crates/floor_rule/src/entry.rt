// The entries of a log, and what the proofs keep beside each.
ghost use Rattle.std.specs.Prelude.{◌≡◌, ◌<◌, ◌++◌, ◌∷◌, [], length};
ghost use Rattle.floor_rule.specs.Marks.{shown_of};

use arrayvec::ArrayVec;
use pcm_base::{Act, Bytes, ClientId, Event, Outcome, Reply, State, SubId, Vote};
use std::marker::Model;

/// One substream's part in an act: the room of its group, the act's place among the acts of that room, the vote of the
/// substream and what became of the act.
#[derive(Clone, Copy, Debug, PartialEq, Eq)]
pub struct Joint {
    pub act: Act,
    pub room: u32,
    pub serial: u64,
    pub vote: Vote,
    pub outcome: Outcome,
}

impl Default for Joint {
    fn default() -> Joint {
        Joint {
            act: Act::Watch,
            room: 0,
            serial: 0,
            vote: Vote::Yes,
            outcome: Outcome::Done,
        }
    }
}

/// Up to three joints, in order: no event makes more acts. Contracts see the list.
#[derive(Drop)]
pub struct Joints {
    items: ArrayVec<Joint, 3>,
}

impl Model for Joints {
    ghost use Rattle.std.specs.Prelude.{List};
    ghost use Rattle.floor_rule.specs.declared.entry.Joint.{Joint};

    ghost Value = { List Joint };

    ghost view = { λ v. v.items.items };
}

impl Joints {
    /// No joint.
    pub fn new() -> Joints
        ensures { result ≡ [] }
    {
        Joints {
            items: ArrayVec::new(),
        }
    }

    /// Puts a joint behind the others.
    pub fn push(&mut self, joint: Joint)
        requires { length self.old < 3 }
        ensures { self.new ≡ self.old ++ joint ∷ [] }
    {
        self.items.push(joint);
    }

    /// The joints, in order.
    pub fn as_slice(&self) -> &[Joint]
        ensures { result.now ≡ self.now }
    {
        self.items.as_slice()
    }
}

/// An entry of a substream's log: an event of its own, its part in an act that another member's event made, a link that
/// names it, or its move to another room.
#[derive(Drop)]
pub enum Entry {
    Own {
        event: Event,
        bytes: Bytes,
        joints: Joints,
        reply: Reply,
        state: State,
    },
    Shared(Joint),
    Linkage {
        client: ClientId,
        first: SubId,
        second: SubId,
        first_state: State,
        second_state: State,
        second_linked: bool,
        reply: Reply,
    },
    Moved {
        room: u32,
    },
}

/// What is known of an entry beside the log: the state and the shown hardware position after it, and where it comes from.
/// An own entry and a link come from a call: the number of the caller's pass, the caller's number of the call, and the
/// count of bytes that it handed in. A shared one and a move come from an entry: a substream and a place in its log.
#[derive(Clone, Copy, Debug, PartialEq, Eq)]
pub enum EntryMark {
    Called {
        state: State,
        hw: u64,
        caller: u32,
        number: u64,
        count: u64,
    },
    Caused {
        state: State,
        hw: u64,
        sub: SubId,
        place: u32,
    },
}

impl EntryMark {
    /// The state after the entry.
    pub fn state(&self) -> State
        ensures { result ≡ (shown_of self.now).state }
    {
        match *self {
            EntryMark::Called { state, .. } => state,
            EntryMark::Caused { state, .. } => state,
        }
    }

    /// The shown hardware position after the entry, in frames.
    pub fn hw(&self) -> u64
        ensures { result ≡ (shown_of self.now).hw }
    {
        match *self {
            EntryMark::Called { hw, .. } => hw,
            EntryMark::Caused { hw, .. } => hw,
        }
    }
}
