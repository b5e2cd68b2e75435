// One call of a client's worker.
ghost use Rattle.std.specs.Prelude.{◌≡◌, ◌∷◌, [], OnOk, OnErr, false, length};
ghost use Rattle.std.specs.Option.{ForSome};
ghost use Rattle.pcm_group.specs.Turn.{is_group_call};
ghost use Rattle.room_parts.specs.declared.pass.Caller.TheVariants.{Client as ClientCaller};
ghost use Rattle.live_floor.specs.Passes.{IsGoOf};
ghost use Rattle.live_work.specs.Called.{HasCalled};
ghost use Rattle.live_work.specs.Calls.{IsMadeIfDone, IsOwnCall};

use crate::calls::{Calls, Links};
use crate::crew::Stop;
use crate::gate::Gate;
use crate::site::Site;
use crossbeam_utils::sync::Parker;
use pcm_base::{Call, ClientId, Event};
use room_lock::Answer;
use room_parts::{FloorName, Pass};
use std::sync::Wait;

/// The worker of a client: whose it is, where it sleeps, and how many calls its pass had made before.
#[derive(Drop)]
pub(crate) struct Worker<'a> {
    pub client: ClientId,
    pub parker: &'a Parker,
    pub before: u64,
}

/// The call of an event of a client on the floor, by the client's pass. A link and an unlink are handed no bytes.
#[tactic(auto, using(crate::proofs::Making::is_made_by, crate::proofs::Making::event_is, crate::proofs::Making::idle_before))]
pub fn send<N: FloorName, F: Calls<N> + Links<N>, R: Wait>(
    rt: &R,
    floor: &F,
    pass: &mut Pass<N>,
    client: ClientId,
    event: &Event,
    io: &mut [u8],
) -> Answer
    requires own { IsOwnCall (length N.cards) client event.now }
    requires caller { pass.old.caller ≡ ClientCaller client }
    requires busy { ForSome pass.old.busy (λ k. IsGoOf k event.now) }
    requires none { is_group_call event.now.call ≡ false → io.old ≡ [] }
    ensures { IsMadeIfDone N.cards N.long_max result event.now io.old pass.old pass.new }
{
    match event.call {
        Call::Link(second) => floor.link(rt, pass, event.sub, second),
        Call::Unlink => floor.unlink(rt, pass, event.sub),
        _ => floor.call(rt, pass, event, io),
    }
}

/// One call of the worker, behind the gate: the clients that it marks awake are woken. Where there is no room for it in a log or
/// no memory, all workers are to stop.
#[tactic(auto, using(crate::proofs::Making::busy_on))]
pub(crate) fn make<N: FloorName, F: Calls<N> + Links<N>, G: Gate, R: Wait>(
    rt: &R,
    site: &Site<'_, F, G>,
    worker: &Worker<'_>,
    pass: &mut Pass<N>,
    event: &Event,
    io: &mut [u8],
) -> Result<(), Stop>
    requires own { IsOwnCall (length N.cards) worker.now.client event.now }
    requires caller { pass.old.caller ≡ ClientCaller worker.now.client }
    requires busy { ForSome pass.old.busy (λ k. IsGoOf k event.now) }
    requires none { is_group_call event.now.call ≡ false → io.old ≡ [] }
    ensures made { OnOk result (HasCalled N.cards N.long_max (record { event = event.now; io = io.old } ∷ []) pass.old pass.new) }
    ensures busy { OnOk result (ForSome pass.new.busy (λ k. k ≡ event.now.sub)) }
    ensures none { OnErr result (HasCalled N.cards N.long_max [] pass.old pass.new) }
{
    let nth = pass.calls().saturating_sub(worker.before).saturating_add(1);
    site.gate.pass(worker.client, nth);
    match send(rt, site.floor, pass, worker.client, event, io) {
        Answer::Done { woken, .. } => {
            site.crew.wake(woken);
            Ok(())
        }
        Answer::LogFull(..) => Err(site.crew.stop(Stop::LogFull)),
        Answer::Memory => Err(site.crew.stop(Stop::Memory)),
    }
}
