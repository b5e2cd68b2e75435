// The worker of a client.
ghost use Rattle.std.specs.Prelude.{◌≡◌, ◌⊎◌, [], OnOk, OnErr, length};
ghost use Rattle.std.specs.List.{AllByRecursion};
ghost use Rattle.std.specs.Option.{ForSome};
ghost use Rattle.std.specs.declared.option.Option.TheVariants.{None as Nowhere};
ghost use Rattle.room_parts.specs.declared.pass.Caller.TheVariants.{Client as ClientCaller};
ghost use Rattle.live_plan.specs.Sound.{IsClientLine};
ghost use Rattle.live_work.specs.Called.{HasCalled, IsSameCaller};
ghost use Rattle.live_work.specs.Calls.{IsOwnCall};
ghost use Rattle.live_work.specs.Runs.{HasCarriedOn, HasRun, HasRunFirst, HasRunLine, io_of};

use crate::calls::{Calls, Links};
use crate::crew::Stop;
use crate::gate::Gate;
use crate::handed::{lend_again, lent};
use crate::made::{Worker, make};
use crate::site::Site;
use crossbeam_utils::sync::Parker;
use pcm_base::{Call, ClientId, Event};
use pcm_line::Line;
use room_parts::{FloorName, Pass};
use std::alloc::Global;
use std::sync::Wait;

// The worker sleeps until its client is woken, and then carries its call on with its bytes, as long as that is in progress.
#[tactic(auto, using(crate::proofs::Lines::own_go))]
fn carry_on<N: FloorName, F: Calls<N> + Links<N>, G: Gate, R: Wait>(
    rt: &R,
    site: &Site<'_, F, G>,
    worker: &Worker<'_>,
    pass: &mut Pass<N>,
    event: &Event,
    bytes: &[u8],
    io: &mut [u8],
) -> Result<(), Stop>
    requires own { IsOwnCall (length N.cards) worker.now.client event.now }
    requires caller { pass.old.caller ≡ ClientCaller worker.now.client }
    requires busy { ForSome pass.old.busy (λ k. k ≡ event.now.sub) }
    requires size { length io.old ≡ length (io_of event.now.call bytes.now) }
    ensures gos { HasCarriedOn N.cards N.long_max event.now (io_of event.now.call bytes.now) pass.old pass.new }
    ensures idle { OnOk result (pass.new.busy ≡ Nowhere) }
    ensures same { IsSameCaller pass.old pass.new }
{
    let go = Event {
        client: event.client,
        sub: event.sub,
        call: Call::Go,
    };
    for _ in rt.forever() {
        if pass.busy().is_none() {
            return Ok(());
        }
        worker.parker.park(rt);
        if let Some(why) = site.crew.stopped() {
            return Err(why);
        }
        lend_again(&event.call, bytes, io);
        make(rt, site, worker, pass, &go, io)?;
    }
    unreachable!()
}

// The call of a line, until it is answered.
#[tactic(auto, using(crate::proofs::Lines::own_call, crate::proofs::Lines::no_bytes, crate::proofs::Called::none_called))]
fn run_line<N: FloorName, F: Calls<N> + Links<N>, G: Gate, R: Wait>(
    rt: &R,
    alloc: Global,
    site: &Site<'_, F, G>,
    worker: &Worker<'_>,
    pass: &mut Pass<N>,
    line: &Line,
) -> Result<(), Stop>
    requires line { IsClientLine (length N.cards) worker.now.client.0 line.now }
    requires caller { pass.old.caller ≡ ClientCaller worker.now.client }
    requires idle { pass.old.busy ≡ Nowhere }
    ensures ran { OnOk result (HasRunLine N.cards N.long_max line.now pass.old pass.new × (pass.new.busy ≡ Nowhere)) }
    ensures part { OnErr result (HasCalled N.cards N.long_max [] pass.old pass.new ⊎ HasRunLine N.cards N.long_max line.now pass.old pass.new) }
    ensures same { IsSameCaller pass.old pass.new }
{
    let Line::Event(event, bytes) = line else {
        return Ok(());
    };
    let Ok(mut io) = lent(alloc, &event.call, bytes.as_slice()) else {
        return Err(site.crew.stop(Stop::Memory));
    };
    make(rt, site, worker, pass, event, &mut io)?;
    carry_on(rt, site, worker, pass, event, bytes.as_slice(), &mut io)
}

// The lines in order, as long as the workers are to go on.
#[tactic(auto, using(crate::proofs::Running::all_at, crate::proofs::Running::run_none))]
fn run_lines<N: FloorName, F: Calls<N> + Links<N>, G: Gate, R: Wait>(
    rt: &R,
    alloc: Global,
    site: &Site<'_, F, G>,
    worker: &Worker<'_>,
    pass: &mut Pass<N>,
    lines: &[Line],
) -> Result<(), Stop>
    requires lines { AllByRecursion (IsClientLine (length N.cards) worker.now.client.0) lines.now }
    requires caller { pass.old.caller ≡ ClientCaller worker.now.client }
    requires idle { pass.old.busy ≡ Nowhere }
    ensures ran { OnOk result (HasRun N.cards N.long_max lines.now pass.old pass.new × (pass.new.busy ≡ Nowhere)) }
    ensures first { HasRunFirst N.cards N.long_max lines.now pass.old pass.new }
    ensures same { IsSameCaller pass.old pass.new }
{
    for i in 0..lines.len() {
        if let Some(why) = site.crew.stopped() {
            return Err(why);
        }
        run_line(rt, alloc, site, worker, pass, &lines[i])?;
    }
    Ok(())
}

/// The worker of a client: it makes the calls of its lines in order, by the client's pass, which has no call in progress. A
/// call that is answered Asleep sleeps on `parker`, and is carried on when the client is woken, until it is answered. Each
/// call is handed the bytes of its line, or where it reads zeros, 32 for each frame, and what carries it on the same again, or
/// what it has read. The clients that a call marks awake are woken. It may wait for ever. It stops where a log takes no more
/// entries, where there is no memory, and where another worker did; all workers are then to stop, and the pass has made the
/// calls of the first lines, the last of them perhaps not to its end.
pub fn run_client<N: FloorName, F: Calls<N> + Links<N>, G: Gate, R: Wait>(
    rt: &R,
    alloc: Global,
    site: &Site<'_, F, G>,
    parker: &Parker,
    pass: &mut Pass<N>,
    client: ClientId,
    lines: &[Line],
) -> Result<(), Stop>
    requires lines { AllByRecursion (IsClientLine (length N.cards) client.0) lines.now }
    requires caller { pass.old.caller ≡ ClientCaller client }
    requires idle { pass.old.busy ≡ Nowhere }
    ensures ran { OnOk result (HasRun N.cards N.long_max lines.now pass.old pass.new × (pass.new.busy ≡ Nowhere)) }
    ensures first { HasRunFirst N.cards N.long_max lines.now pass.old pass.new }
    ensures same { IsSameCaller pass.old pass.new }
{
    let worker = Worker {
        client,
        parker,
        before: pass.calls(),
    };
    let ran = run_lines(rt, alloc, site, &worker, pass, lines);
    site.crew.leave();
    ran
}
