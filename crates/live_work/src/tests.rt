// A client alone on a floor of one card, and a client beside its card.
ghost use Rattle.std.specs.Prelude.{◌≡◌, ◌<◌, [], length, map, IfOk};
ghost use Rattle.std.specs.List.{AllByRecursion};
ghost use Rattle.std.specs.declared.option.Option.TheVariants.{None as Nowhere};
ghost use Rattle.room_parts.specs.declared.pass.Caller.TheVariants.{Card as CardCaller, Client as ClientCaller};
ghost use Rattle.live_floor.specs.Cards.{limits};
ghost use Rattle.live_plan.specs.Sound.{IsClientLine, IsSound};

use super::*;
use crossbeam_utils::sync::Parker;
use floor_rule::{Glance, Maker, SharedWords};
use live_floor::Floor;
use live_plan::{Plan, PlanError, read_plan};
use pcm_base::{ClientId, Dir, State, SubId};
use pcm_io::MemSource;
use pcm_line::Line;
use room_parts::{FloorName, Pass};
use std::alloc::{AllocError, Global};
use std::marker::Brand;
use std::process::Abort;
use std::sync::Wait;
use std::sync::ledger::{Blank, Ledger};
use std::test::Fail;
use std::thread::{Threads, join};

const CLIENT: ClientId = ClientId(0);

const CARD: SubId = SubId(0);

fn read(alloc: Global, text: &[u8]) -> Result<Result<Plan, PlanError>, AllocError>
    ensures { IfOk result (λ plan. IfOk plan IsSound) }
{
    let mut source = MemSource::new(text.to_vec(alloc)?, Vec::new(alloc), 4096);
    Ok(read_plan(alloc, &mut source))
}

// A client works, and nobody beside it.
fn by_itself<N: FloorName + Ledger, R: Wait>(
    rt: &R,
    alloc: Global,
    site: &Site<'_, Floor<N>, FreeGate>,
    parker: &Parker,
    client: &mut Pass<N>,
    lines: &[Line],
) -> Result<(), Stop>
    requires lines { AllByRecursion (IsClientLine (length N.cards) 0) lines.now }
    requires client { (client.old.caller ≡ ClientCaller CLIENT) × (client.old.busy ≡ Nowhere) }
{
    run_client(rt, alloc, site, parker, client, CLIENT, lines)
}

// The first client of the plan works alone: what its worker answers, how many calls its pass has made, and the page then.
fn alone<N: FloorName + Ledger, R: Wait>(
    rt: &R,
    alloc: Global,
    blank: Blank,
    words: SharedWords,
    maker: Maker,
    plan: &Plan,
) -> Result<(Result<(), Stop>, u64, Glance), AllocError>
    requires sound { IsSound plan.now }
    requires ledger { (blank.name ≡ N.name) × (blank.parts ≡ N.parts) × (N.parts ≡ 32) }
    requires words { words ≡ record { table = N.table; cards = length plan.now.cards.items } }
    requires cards { (N.cards ≡ map limits plan.now.cards.items) × (N.long_max ≡ plan.now.long_max) }
    requires maker { maker ≡ record { table = N.table; knows = record { recs = 0; passes = 0; roll = [] } } }
{
    let (floor, passes) = Floor::<N>::new(alloc, blank, words, maker, &plan.cards, plan.long_max)?;
    let (crew, mut parkers) = Crew::new(alloc, 1)?;
    let mut clients = passes.clients;
    let gate = FreeGate;
    let site = Site {
        floor: &floor,
        crew: &crew,
        gate: &gate,
    };
    let parker = parkers.swap_remove(0);
    let client = &mut clients[0];
    let ran = by_itself(rt, alloc, &site, &parker, client, &plan.clients[0]);
    let pass = &mut clients[0];
    let calls = pass.calls();
    Ok((ran, calls, floor.page(pass, CARD)))
}

#[test]
fn a_client_plays_alone(rt: HostRuntime) -> Result<(), Fail> {
    let text = b"card s0 basic p
threads
open c0 s0
hw c0 s0 RW_INTERLEAVED U8 1 8000 2 2
prepare c0 s0
writei c0 s0 n 01020304
status c0 s0
drop c0 s0
join
";
    let plan = read(rt.alloc(), text)??;
    let (words, maker) = SharedWords::new(rt.alloc(), plan.cards.len() as u64)?;
    let (ran, calls, page) = alone::<Brand, HostRuntime>(
        &rt,
        rt.alloc(),
        Blank::new(32),
        words,
        maker,
        &plan,
    )?;
    assert_eq!(rt; ran, Ok(()));
    assert_eq!(rt; calls, 6);
    assert_eq!(rt;
        page,
        Glance {
            count: 6,
            state: State::Setup,
            hw: 0
        }
    );
    Ok(())
}

// A client and a card work at the same time.
fn together<N: FloorName + Ledger + Send + Sync, R: Threads + Wait + Sync>(
    rt: &R,
    alloc: Global,
    site: &Site<'_, Floor<N>, FreeGate>,
    parker: Parker,
    client: &mut Pass<N>,
    card: &mut Pass<N>,
    lines: &[Line],
    beats: Beats,
) -> (Result<(), Stop>, Result<(), Stop>)
    requires lines { AllByRecursion (IsClientLine (length N.cards) 0) lines.now }
    requires client { (client.old.caller ≡ ClientCaller CLIENT) × (client.old.busy ≡ Nowhere) }
    requires beats { beats.sub.0 < length N.cards }
    requires card { card.old.caller ≡ CardCaller beats.sub }
{
    join(
        rt,
        move || -> Result<(), Stop>
            requires { AllByRecursion (IsClientLine (length N.cards) 0) lines.now × (client.now.caller ≡ ClientCaller CLIENT) × (client.now.busy ≡ Nowhere) }
        { run_client(rt, alloc, site, &parker, client, CLIENT, lines) },
        move || -> Result<(), Stop>
            requires { (beats.sub.0 < length N.cards) × (card.now.caller ≡ CardCaller beats.sub) }
        { run_card(rt, site.floor, site.crew, card, beats) },
    )
}

// The first client works beside its card, which moves two frames once: what both answer, how many calls the client's pass has
// made, and the page then.
fn beside<N: FloorName + Ledger + Send + Sync, R: Threads + Wait + Sync>(
    rt: &R,
    alloc: Global,
    blank: Blank,
    words: SharedWords,
    maker: Maker,
    plan: &Plan,
) -> Result<(Result<(), Stop>, Result<(), Stop>, u64, Glance), AllocError>
    requires sound { IsSound plan.now }
    requires ledger { (blank.name ≡ N.name) × (blank.parts ≡ N.parts) × (N.parts ≡ 32) }
    requires words { words ≡ record { table = N.table; cards = length plan.now.cards.items } }
    requires cards { (N.cards ≡ map limits plan.now.cards.items) × (N.long_max ≡ plan.now.long_max) }
    requires maker { maker ≡ record { table = N.table; knows = record { recs = 0; passes = 0; roll = [] } } }
{
    let (floor, passes) = Floor::<N>::new(alloc, blank, words, maker, &plan.cards, plan.long_max)?;
    let (crew, mut parkers) = Crew::new(alloc, 1)?;
    let mut clients = passes.clients;
    let mut cards = passes.cards;
    let gate = FreeGate;
    let site = Site {
        floor: &floor,
        crew: &crew,
        gate: &gate,
    };
    let beats = Beats {
        sub: CARD,
        dir: Dir::Playback,
        frames: 2,
        count: 1,
    };
    let parker = parkers.swap_remove(0);
    let (client, card) = (&mut clients[0], &mut cards[0]);
    let (ran, beaten) = together(
        rt,
        alloc,
        &site,
        parker,
        client,
        card,
        &plan.clients[0],
        beats,
    );
    let pass = &mut clients[0];
    let calls = pass.calls();
    Ok((ran, beaten, calls, floor.page(pass, CARD)))
}

#[test]
fn a_write_of_more_than_a_buffer_ends_beside_its_card(rt: HostRuntime) -> Result<(), Fail> {
    let text = b"card s0 basic p
threads
open c0 s0
hw c0 s0 RW_INTERLEAVED U8 1 8000 2 2
prepare c0 s0
writei c0 s0 b 010203040506
beat s0 2 1
join
";
    let plan = read(rt.alloc(), text)??;
    let (words, maker) = SharedWords::new(rt.alloc(), plan.cards.len() as u64)?;
    let (ran, beaten, calls, page) = beside::<Brand, HostRuntime>(
        &rt,
        rt.alloc(),
        Blank::new(32),
        words,
        maker,
        &plan,
    )?;
    assert_eq!(rt; (ran, beaten), (Ok(()), Ok(())));
    assert_eq!(rt; calls, 5);
    assert_eq!(rt;
        page,
        Glance {
            count: 7,
            state: State::Running,
            hw: 2
        }
    );
    Ok(())
}

#[test]
fn a_stop_wakes_every_sleeper(rt: HostRuntime) -> Result<(), Fail> {
    let (crew, parkers) = Crew::new(rt.alloc(), 2)?;
    assert_eq!(rt; crew.stopped(), None);
    assert_eq!(rt; crew.stop(Stop::LogFull), Stop::LogFull);
    assert_eq!(rt; crew.stop(Stop::Memory), Stop::LogFull);
    assert_eq!(rt; crew.stopped(), Some(Stop::LogFull));
    for parker in &parkers {
        parker.park(&rt);
    }
    Ok(())
}

#[test]
fn a_crew_tells_when_its_clients_have_left(rt: HostRuntime) -> Result<(), Fail> {
    let (crew, _parkers) = Crew::new(rt.alloc(), 2)?;
    crew.leave();
    assert!(rt; !crew.has_left());
    crew.leave();
    assert!(rt; crew.has_left());
    Ok(())
}
