// The votes of a group on one act, and the act with its votes.
ghost use Rattle.std.specs.Prelude.{◌≡◌, ◌<◌, ◌++◌, ◌∷◌, [], length};

use crate::{Act, Outcome, Vote};
use arrayvec::ArrayVec;
use std::marker::Model;

/// Up to 16 votes, in link order. Contracts see the list.
#[derive(Drop)]
pub struct Votes {
    items: ArrayVec<Vote, 16>,
}

impl Model for Votes {
    ghost use Rattle.std.specs.Prelude.{List};
    ghost use Rattle.pcm_base.specs.declared.act.Vote.{Vote};

    ghost Value = { List Vote };

    ghost view = { λ v. v.items.items };
}

impl Votes {
    /// No vote.
    pub fn new() -> Votes
        ensures { result ≡ [] }
    {
        Votes {
            items: ArrayVec::new(),
        }
    }

    /// Puts a vote behind the others.
    pub fn push(&mut self, vote: Vote)
        requires { length self.old < 16 }
        ensures { self.new ≡ self.old ++ vote ∷ [] }
    {
        self.items.push(vote);
    }

    /// The votes, in order.
    pub fn as_slice(&self) -> &[Vote]
        ensures { result.now ≡ self.now }
    {
        self.items.as_slice()
    }
}

/// An act, what each member said to it, and what became of it. This project's own.
#[derive(Drop)]
pub struct Acted {
    pub act: Act,
    pub outcome: Outcome,
    pub votes: Votes,
}

// A list of acts fills its unused places with a blank one.
impl Default for Acted {
    fn default() -> Acted {
        Acted {
            act: Act::Watch,
            outcome: Outcome::Done,
            votes: Votes::new(),
        }
    }
}
