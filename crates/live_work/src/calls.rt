// What a worker calls.
ghost use Rattle.std.specs.Prelude.{◌≡◌, ◌≤◌, ◌<◌, [], ℕ, true, false, length};
ghost use Rattle.std.specs.Option.{ForSome, is_none};
ghost use Rattle.std.specs.declared.option.Option.TheVariants.{None as Nowhere};
ghost use Rattle.pcm_base.specs.declared.call.Call.TheVariants.{Link, Unlink};
ghost use Rattle.pcm_group.specs.Turn.{is_card_event, is_group_call};
ghost use Rattle.floor_rule.specs.Steps.{IsPage, with_page};
ghost use Rattle.room_parts.specs.Passes.{IsBy, client_of};
ghost use Rattle.live_floor.specs.Passes.{IsGoOf};
ghost use Rattle.live_work.specs.Calls.{IsMadeIfDone, call_by};

use floor_rule::Glance;
use pcm_base::{Event, SubId};
use room_lock::Answer;
use room_parts::{FloorName, Pass};
use std::sync::Wait;

/// A floor as far as a worker needs it: what its calls tell of the pass. This project's own.
pub trait Calls<N: FloorName> {
    /// An event of a substream, with the bytes of its call, by a pass of its caller, as `Floor::call` makes it. It may wait
    /// for other calls. `LogFull` and `Memory` make no call.
    fn call<R: Wait>(&self, rt: &R, pass: &mut Pass<N>, event: &Event, io: &mut [u8]) -> Answer
        requires card { event.now.sub.0 < length N.cards }
        requires call { is_group_call event.now.call ≡ true }
        requires caller { is_card_event event.now.call ≡ is_none event.now.client }
        requires client { ForSome event.now.client (λ c. c.0 ≤ 15) }
        requires by { IsBy pass.old.caller event.now }
        requires busy { ForSome pass.old.busy (λ k. IsGoOf k event.now) }
        ensures { IsMadeIfDone N.cards N.long_max result event.now io.old pass.old pass.new };

    /// The page of a substream, as `Floor::page` gives it. It waits for nobody.
    fn page(&self, pass: &mut Pass<N>, sub: SubId) -> Glance
        requires card { sub.0 < length N.cards }
        ensures page { (word : ℕ) × IsPage sub.0 word pass.old.knows result.count (record { state = result.state; hw = result.hw }) × (pass.new.knows ≡ with_page pass.old.knows sub.0 result.count word) }
        ensures same { (pass.new.caller ≡ pass.old.caller) × (pass.new.busy ≡ pass.old.busy) };
}

/// A floor whose substreams are linked and unlinked, as far as a worker needs it. This project's own.
pub trait Links<N: FloorName> {
    /// A link of two substreams, the first a card of the floor, by a pass of a client. It may wait for other calls. `LogFull`
    /// and `Memory` make no call.
    fn link<R: Wait>(&self, rt: &R, pass: &mut Pass<N>, first: SubId, second: SubId) -> Answer
        requires card { first.0 < length N.cards }
        requires client { is_none (client_of pass.old.caller) ≡ false }
        requires idle { pass.old.busy ≡ Nowhere }
        ensures { IsMadeIfDone N.cards N.long_max result (call_by pass.old first (Link second)) [] pass.old pass.new };

    /// An unlink of a substream, a card of the floor, by a pass of a client. It may wait for other calls. `LogFull` and
    /// `Memory` make no call.
    fn unlink<R: Wait>(&self, rt: &R, pass: &mut Pass<N>, sub: SubId) -> Answer
        requires card { sub.0 < length N.cards }
        requires client { is_none (client_of pass.old.caller) ≡ false }
        requires idle { pass.old.busy ≡ Nowhere }
        ensures { IsMadeIfDone N.cards N.long_max result (call_by pass.old sub Unlink) [] pass.old pass.new };
}
