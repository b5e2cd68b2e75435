// The workers of a run.
ghost use Rattle.std.specs.Prelude.{◌≡◌, ◌≤◌, true, false, drop, length, map, take, vec_len, IfErr, IfOk};
ghost use Rattle.std.specs.List.{All, AllZip, list_all};
ghost use Rattle.std.specs.Option.{is_none};
ghost use Rattle.std.specs.Result.{is_ok};
ghost use Rattle.std.specs.declared.option.Option.TheVariants.{None as Nothing};
ghost use Rattle.pcm_text.specs.declared.status.Status.TheVariants.{Memory};
ghost use Rattle.live_plan.specs.Sound.{IsSound};
ghost use Rattle.live_top.specs.declared.halt.Halt.TheVariants.{Ended};
ghost use Rattle.live_top.specs.Jobs.{CanDo, HasDone};
ghost use Rattle.live_top.specs.Passes.{AreWhose, HaveWorked};

use crate::halt::Halt;
use crate::parts::{Job, Part, Worked, card_jobs, client_count, client_jobs};
use live_floor::{Floor, Passes};
use live_plan::Plan;
use live_work::{Crew, Gate, Site, Stop, run_card, run_client};
use pcm_text::Status;
use room_parts::{FloorName, Pass};
use std::alloc::{AllocError, Global};
use std::sync::Wait;
use std::sync::ledger::Ledger;
use std::thread::{Threads, map_vec};

/// How many clients a floor has.
const CLIENTS: usize = 16;

// One worker, to its end.
fn work<N: FloorName + Ledger, G: Gate, R: Wait>(
    rt: &R,
    alloc: Global,
    site: &Site<'_, Floor<N>, G>,
    job: Job<'_, N>,
) -> Worked<N>
    requires { CanDo (length N.cards) job.part job.pass }
    ensures { HasDone N.cards N.long_max job.entry result }
{
    let Job { mut pass, part } = job;
    let ran = match part {
        Part::Client(client, parker, lines) => {
            run_client(rt, alloc, site, &parker, &mut pass, client, lines)
        }
        Part::Card(beats) => run_card(rt, site.floor, site.crew, &mut pass, beats),
        Part::Idle => Ok(()),
    };
    Worked { pass, ran }
}

// All workers at the same time, each to its end.
fn work_all<N: FloorName + Ledger + Send + Sync, G: Gate + Sync, R: Threads + Wait + Sync>(
    rt: &R,
    alloc: Global,
    site: &Site<'_, Floor<N>, G>,
    jobs: Vec<Job<'_, N>>,
) -> Result<Vec<Worked<N>>, AllocError>
    requires { All (λ job. CanDo (length N.cards) job.part job.pass) jobs.items }
    ensures { IfOk result (λ worked. AllZip (HasDone N.cards N.long_max) jobs.entry.items worked.items) }
{
    let one = move |job: Job<'_, N>| -> Worked<N>
        requires { CanDo (length N.cards) job.part job.pass }
        ensures { HasDone N.cards N.long_max job.entry result }
    { work(rt, alloc, site, job) };
    map_vec(rt, jobs, &one)
}

// Why the workers stopped before their end, if one did. Want of memory is told before a full log.
fn stop_of<N: FloorName>(worked: &[Worked<N>]) -> Option<Stop>
    ensures { is_none result ≡ list_all (λ w. is_ok w.ran) worked.now }
{
    let mut stop = None;
    for one in worked {
        match one.ran {
            Ok(()) => {}
            Err(Stop::Memory) => return Some(Stop::Memory),
            Err(Stop::LogFull) => stop = Some(Stop::LogFull),
        }
    }
    stop
}

// The passes of the workers, in order.
fn passes_of<N: FloorName>(
    alloc: Global,
    worked: Vec<Worked<N>>,
) -> Result<Vec<Pass<N>>, AllocError>
    ensures { IfOk result (λ passes. passes.items ≡ map (λ w. w.pass) worked.items) }
{
    let mut passes = Vec::with_capacity(alloc, worked.len())?;
    for one in worked {
        passes.push(one.pass)?;
    }
    Ok(passes)
}

// Those of the clients, and behind them those of the cards.
fn parted<N: FloorName>(alloc: Global, mut clients: Vec<Worked<N>>) -> Result<Passes<N>, AllocError>
    requires { 16 ≤ vec_len clients }
    ensures clients { IfOk result (λ passes. passes.clients.items ≡ map (λ w. w.pass) (take 16 clients.items)) }
    ensures cards { IfOk result (λ passes. passes.cards.items ≡ map (λ w. w.pass) (drop 16 clients.items)) }
{
    let cards = clients.split_off(CLIENTS)?;
    Ok(Passes {
        clients: passes_of(alloc, clients)?,
        cards: passes_of(alloc, cards)?,
    })
}

// The workers of the plan, run to their ends: an Err is want of memory.
fn run_all<N: FloorName + Ledger + Send + Sync, G: Gate + Sync, R: Threads + Wait + Sync>(
    rt: &R,
    alloc: Global,
    floor: &Floor<N>,
    plan: &Plan,
    gate: &G,
    passes: Passes<N>,
) -> Result<(Passes<N>, Option<Stop>), AllocError>
    requires passes { AreWhose (length N.cards) passes.clients.items passes.cards.items }
    requires sound { IsSound plan.now }
    requires cards { length N.cards ≡ length plan.now.cards.items }
    ensures whose { IfOk result (λ ran. AreWhose (length N.cards) ran.0.clients.items ran.0.cards.items) }
    ensures whole { IfOk result (λ ran. ran.1 ≡ Nothing → HaveWorked N.cards N.long_max true plan.now passes.clients.items ran.0.clients.items passes.cards.items ran.0.cards.items) }
    ensures first { IfOk result (λ ran. HaveWorked N.cards N.long_max false plan.now passes.clients.items ran.0.clients.items passes.cards.items ran.0.cards.items) }
{
    let (crew, parkers) = Crew::new(alloc, client_count(plan))?;
    let site = Site {
        floor,
        crew: &crew,
        gate,
    };
    let Passes { clients, cards } = passes;
    let mut jobs = client_jobs(alloc, plan, clients, parkers)?;
    jobs.append(&mut card_jobs(alloc, plan, cards)?)?;
    let worked = work_all(rt, alloc, &site, jobs)?;
    let stop = stop_of(&worked);
    Ok((parted(alloc, worked)?, stop))
}

/// Runs all workers of the plan at the same time, and joins them: the passes then, and why they stopped before their end, if
/// they did. Each client has called what its lines say and each card has made its beats, or where they stopped the first of
/// them. An Err is want of memory.
pub(crate) fn run_workers<
    N: FloorName + Ledger + Send + Sync,
    G: Gate + Sync,
    R: Threads + Wait + Sync,
>(
    rt: &R,
    alloc: Global,
    floor: &Floor<N>,
    plan: &Plan,
    gate: &G,
    passes: Passes<N>,
) -> Result<(Passes<N>, Option<Stop>), Halt>
    requires passes { AreWhose (length N.cards) passes.clients.items passes.cards.items }
    requires sound { IsSound plan.now }
    requires cards { length N.cards ≡ length plan.now.cards.items }
    ensures whose { IfOk result (λ ran. AreWhose (length N.cards) ran.0.clients.items ran.0.cards.items) }
    ensures whole { IfOk result (λ ran. ran.1 ≡ Nothing → HaveWorked N.cards N.long_max true plan.now passes.clients.items ran.0.clients.items passes.cards.items ran.0.cards.items) }
    ensures first { IfOk result (λ ran. HaveWorked N.cards N.long_max false plan.now passes.clients.items ran.0.clients.items passes.cards.items ran.0.cards.items) }
    ensures memory { IfErr result (λ halt. halt ≡ Ended Memory) }
{
    match run_all(rt, alloc, floor, plan, gate, passes) {
        Ok(ran) => Ok(ran),
        Err(_) => Err(Halt::Ended(Status::Memory)),
    }
}
