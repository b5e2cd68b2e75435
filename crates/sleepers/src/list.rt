// The list of the calls in progress.
ghost use Rattle.std.specs.Prelude.{◌≡◌, ◌≤◌, ◌∷◌, ◌++◌, [], position, All, Any, IsBitSet, IsNone, IsTrue, ◌↔◌, ℕ, List, true, false};
ghost use Rattle.std.specs.Option.{option_map};
ghost use Rattle.pcm_base.specs.model.Events.{others_than as others_waiting, waiting_of};
ghost use Rattle.pcm_base.specs.model.Sleep.{mask_of, without_client};
ghost use Rattle.pcm_base.specs.model.Stream.{Stream, avail as avail_of};
ghost use Rattle.sleepers.specs.Clients.{AreApart, has_client, is_asleep_of, is_of, others_than, sleeper_of};
ghost use Rattle.sleepers.specs.Marks.{waiting, marks_with, AreMarks, IsModelCheck};
ghost use Rattle.sleepers.specs.Wake.{after_check, clients_of, may_wait_on, with_mark, woken_sleepers};

use crate::place::Place;
use crate::wake::{mark_each, wake_each};
use arrayvec::ArrayVec;
use pcm_base::{ClientId, Dir, Sleeper, State, Task};
use std::marker::Model;

/// The calls in progress on one substream, in the order in which they came, at most one of each client. Contracts see
/// the list. No call takes memory. This project's own.
#[derive(Drop)]
pub struct Sleepers {
    items: ArrayVec<Place, 16>,
}

impl Model for Sleepers {
    ghost use Rattle.std.specs.Prelude.{List};
    ghost use Rattle.pcm_base.specs.declared.sleeper.Sleeper.{Sleeper};
    ghost use Rattle.sleepers.specs.Clients.{AreApart};

    ghost Value = { List Sleeper };

    ghost view = { λ s. s.items.items };

    ghost invariant = { λ s. AreApart s.items.items };
}

// Where the client's call is.
fn place_of(places: &[Place], client: ClientId) -> Option<usize>
    ensures { result ≡ position (is_of client) places.now }
{
    places
        .iter()
        .position(|place| place.sleeper.client == client)
}

impl Sleepers {
    /// No call in progress.
    pub fn new() -> Sleepers
        ensures { result ≡ [] }
    {
        Sleepers {
            items: ArrayVec::new(),
        }
    }

    /// Adds a call in progress of a client that has none here. There is always room, since clients are numbered from 0
    /// to 15.
    pub fn add(&mut self, s: Sleeper)
        requires client { s.client.0 ≤ 15 }
        requires none { has_client s.client self.old ≡ false }
        ensures after { self.new ≡ self.old ++ s ∷ [] }
        ensures apart { AreApart self.new }
        ensures marks { (marks : List ClientId) → s.asleep ≡ true → AreMarks marks self.old
            → AreMarks (s.client ∷ without_client s.client marks) self.new }
    {
        self.items.push(Place::of(s));
    }

    /// Takes the client's call in progress out; None where it has none. The others stay in order.
    pub fn take(&mut self, client: ClientId) -> Option<Sleeper>
        ensures value { result ≡ sleeper_of client self.old }
        ensures none { IsNone result ↔ (has_client client self.old ≡ false) }
        ensures others { self.new ≡ others_than client self.old }
        ensures gone { has_client client self.new ≡ false }
        ensures apart { AreApart self.new }

        // As the model has them.
        ensures task { option_map (λ x. x.task) result ≡ waiting_of client (waiting self.old) }
        ensures waiting { waiting self.new ≡ others_waiting client (waiting self.old) }
        ensures marks { (marks : List ClientId) → AreMarks marks self.old
            → AreMarks (without_client client marks) self.new }
    {
        match place_of(&self.items, client) {
            Some(at) => {
                let place = self.items.remove(at);
                Some(place.sleeper)
            }
            None => None,
        }
    }

    /// Marks awake each sleeper that may no longer wait on a substream in this state, with so many frames available and
    /// with a group that drains or not, and gives the mask of their clients: client i is bit i. The rule is the same in
    /// both directions.
    pub fn wake_check(&mut self, state: State, _dir: Dir, avail: u64, group_drains: bool) -> u16
        ensures after { self.new ≡ after_check state avail group_drains self.old }
        ensures apart { AreApart self.new }
        ensures asleep { All (λ x. IsTrue x.asleep → IsTrue (may_wait_on state avail group_drains x.task)) self.new }
        ensures mask { result ≡ mask_of (clients_of (woken_sleepers state avail group_drains self.old)) }
        ensures bits { (i : ℕ) → IsBitSet result i
            ↔ Any (λ x. x.client.0 ≡ i) (woken_sleepers state avail group_drains self.old) }

        // On a stream of the model in this state, with any marks that say who is asleep.
        ensures model { (s : Stream) (marks : List ClientId) → s.state ≡ state → avail_of s ≡ avail
            → AreMarks marks self.old → IsModelCheck group_drains s marks self.old self.new result }
    {
        wake_each(self.items.as_mut_slice(), state, avail, group_drains)
    }

    /// What the client's call waits for; None where it has none here. The call stays.
    pub fn task(&self, client: ClientId) -> Option<Task>
        ensures { result ≡ waiting_of client (waiting self.now) }
    {
        match place_of(&self.items, client) {
            Some(at) => {
                let place = self.items[at];
                Some(place.sleeper.task)
            }
            None => None,
        }
    }

    /// Marks the client's call asleep or awake, which keeps its place; nothing changes where it has none here.
    pub fn mark(&mut self, client: ClientId, asleep: bool)
        ensures after { self.new ≡ with_mark client asleep self.old }
        ensures apart { AreApart self.new }

        // As the model has them.
        ensures waiting { waiting self.new ≡ waiting self.old }
        ensures marks { (marks : List ClientId) → AreMarks marks self.old
            → AreMarks (marks_with client asleep marks) self.new }
    {
        mark_each(self.items.as_mut_slice(), client, asleep);
    }

    /// Whether the client's call is asleep here.
    pub fn is_asleep(&self, client: ClientId) -> bool
        ensures { result ≡ is_asleep_of client self.now }
    {
        self.items.iter().any(|place| place.sleeper.client == client && place.sleeper.asleep)
    }

    /// Whether no call is in progress.
    pub fn is_empty(&self) -> bool
        ensures { IsTrue result ↔ (self.now ≡ []) }
    {
        self.items.is_empty()
    }
}
