// Groups in which two cards are to fail at a start.
ghost use Rattle.std.specs.Prelude.{◌≡◌, ◌≢◌, ◌≤◌, false, true};
ghost use Rattle.pcm_base.specs.declared.call.Call.TheVariants.{Link};
ghost use Rattle.pcm_group.specs.Turn.{is_card_event};
ghost use Rattle.pcm_world.specs.Shown.{second_of};

use super::*;
use pcm_base::{
    Access, Call, ClientId, Config, Dir, Errno, Event, Format, Layout, Mode, Model, Reply, SubId,
    SwParams,
};
use std::alloc::Global;

// Two periods of two one-byte frames.
const SMALL: Config = Config {
    access: Access::RwInterleaved,
    format: Format::U8,
    channels: 1,
    rate: 8000,
    period: 2,
    periods: 2,
};

// No write starts the card, and nothing stops it.
const PATIENT: SwParams = SwParams {
    avail_min: 2,
    start_threshold: 5,
    stop_threshold: 1 << 30,
    silence_threshold: 0,
    silence_size: 0,
};

// What client 0 is answered.
fn call(world: &mut World, sub: u8, call: Call, bytes: &[u8]) -> Reply
    requires sub { sub ≤ 15 }
    requires second { (second_of call (record { 0 = sub })).0 ≤ 15 }
    requires caller { is_card_event call ≡ false }
{
    let event = Event {
        client: Some(ClientId(0)),
        sub: SubId(sub),
        call,
    };
    world.step(&event, bytes).reply
}

// What a card is answered.
fn beat(world: &mut World, sub: u8, call: Call) -> Reply
    requires sub { sub ≤ 15 }
    requires second { (second_of call (record { 0 = sub })).0 ≤ 15 }
    requires card { is_card_event call ≡ true }
{
    let event = Event {
        client: None,
        sub: SubId(sub),
        call,
    };
    world.step(&event, &[]).reply
}

// So many substreams in one group, each prepared, with two frames written.
fn linked(alloc: Global, count: u8) -> World
    requires { count ≤ 16 }
{
    let mut world = World::new(alloc);
    for k in 0..count {
        let _ = world.declare(SubId(k), Model::Basic, Dir::Playback);
        let _ = call(&mut world, k, Call::OpenSub, &[]);
        let _ = call(&mut world, k, Call::HwParams(SMALL), &[]);
        let _ = call(&mut world, k, Call::SwParams(PATIENT), &[]);
        if k > 0 {
            let _ = call(&mut world, 0, Call::Link(SubId(k)), &[]);
        }
    }
    let _ = call(&mut world, 0, Call::Prepare, &[]);
    for k in 0..count {
        let write = Call::Write(Layout::Interleaved, Mode::NonBlock);
        let _ = call(&mut world, k, write, &[1, 2]);
    }
    world
}

// How many of the cards move by a frame.
fn moving(world: &mut World, count: u8) -> u8
    requires { count ≤ 16 }
{
    let mut moved: u8 = 0;
    for k in 0..count {
        if beat(world, k, Call::MoveBy(1)) == Reply::Moved(1) {
            moved = moved.wrapping_add(1);
        }
    }
    moved
}

// The first fails the first start, which does not ask the second; the second fails the next; then all run.
fn fails_in_turn(alloc: Global, count: u8, first: u8, second: u8) -> bool
    requires count { count ≤ 16 }
    requires first { first ≤ 15 }
    requires second { second ≤ 15 }
{
    let mut world = linked(alloc, count);
    let planned = [
        beat(&mut world, first, Call::FailAt(1)),
        beat(&mut world, second, Call::FailAt(1)),
    ];
    let mut failed = true;
    for _ in 0..2 {
        let eio = call(&mut world, 0, Call::Start, &[]) == Reply::Err(Errno::Eio);
        failed = failed && eio && moving(&mut world, count) == 0;
    }
    let starts = call(&mut world, 0, Call::Start, &[]) == Reply::Ok;
    planned == [Reply::Ok, Reply::Ok] && failed && starts && moving(&mut world, count) == count
}

#[test]
fn each_pair_of_failing_members_fails_in_turn(rt: HostRuntime) {
    for count in 2..17 {
        for second in 1..count {
            for first in 0..second {
                assert!(rt; fails_in_turn(rt.alloc(), count, first, second));
            }
        }
    }
}
