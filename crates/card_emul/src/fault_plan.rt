// Which of the next triggers fail.
ghost use Rattle.std.specs.Prelude.{◌≡◌, ◌≤◌, ◌-◌, ◌&&◌, true, false, if◌then◌else◌, length, replicate, set};
ghost use Rattle.pcm_base.specs.CardFacts.{consults, first_set, moved_on};
ghost use Rattle.card_emul.specs.EmulatedCard.{no_fault};

use pcm_base::Trigger;
use std::marker::Model;

const ENTRIES: usize = 64;

/// The fault plan of a card, an entry for each of the next 64 triggers that consult it. Contracts see the list.
#[derive(Drop)]
pub(crate) struct FaultPlan {
    entries: [bool; ENTRIES],
}

impl Model for FaultPlan {
    ghost use Rattle.std.specs.Prelude.{◌≡◌, List, Bool, length};

    ghost Value = { List Bool };

    ghost view = { λ p. p.entries };

    ghost invariant = { λ p. length p.entries ≡ 64 };
}

impl FaultPlan {
    /// No entry is set.
    pub(crate) fn new() -> FaultPlan
        ensures { result ≡ no_fault }
    {
        FaultPlan {
            entries: [false; ENTRIES],
        }
    }

    /// Takes the first entry away, appends an unset one, and says whether the first was set.
    fn take_first(&mut self) -> bool
        ensures first { result ≡ first_set self.old }
        ensures after { self.new ≡ moved_on self.old }
    {
        let first = self.entries[0];
        self.entries.rotate_left(1);
        self.entries[ENTRIES - 1] = false;
        first
    }

    /// Whether the trigger fails. One that consults the plan takes its first entry away.
    pub(crate) fn trips(&mut self, t: Trigger) -> bool
        ensures fails { result ≡ (consults t && first_set self.old) }
        ensures after { self.new ≡ (if consults t then moved_on self.old else self.old) }
    {
        match t {
            Trigger::Stop | Trigger::Suspend => false,
            Trigger::Start | Trigger::PausePush | Trigger::PauseRelease | Trigger::Resume =>
                self.take_first(),
        }
    }

    /// Sets the k-th entry, counted from 1.
    pub(crate) fn set(&mut self, k: u64)
        requires least { 1 ≤ k }
        requires most { k ≤ 64 }
        ensures { self.new ≡ set self.old (k - 1) true }
    {
        self.entries[k as usize - 1] = true;
    }

    /// Unsets every entry.
    pub(crate) fn clear(&mut self)
        ensures { self.new ≡ replicate (length self.old) false }
    {
        self.entries = [false; ENTRIES];
    }
}
