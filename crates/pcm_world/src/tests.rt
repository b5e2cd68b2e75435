// Worked examples over the world.
ghost use Rattle.std.specs.Prelude.{◌≡◌, ◌≤◌, true};
ghost use Rattle.std.specs.Option.{ForSome, is_none};
ghost use Rattle.pcm_group.specs.Turn.{is_card_event};
ghost use Rattle.pcm_world.specs.Shown.{second_of};

use super::*;
use pcm_base::{
    Access, Call, ClientId, Config, Dir, Errno, Event, Format, Layout, Mode, Model, Reply, State,
    SubId, SwParams, Told,
};

// Two periods of two one-byte frames.
const SMALL: Config = Config {
    access: Access::RwInterleaved,
    format: Format::U8,
    channels: 1,
    rate: 8000,
    period: 2,
    periods: 2,
};

// What a client's call tells, or that of a card where there is no client.
fn told(world: &mut World, client: Option<u8>, sub: u8, call: Call) -> Told
    requires client { ForSome client (λ c. c ≤ 15) }
    requires sub { sub ≤ 15 }
    requires second { (second_of call (record { 0 = sub })).0 ≤ 15 }
    requires caller { is_card_event call ≡ is_none client }
{
    told_with(world, client, sub, call, &[])
}

fn told_with(world: &mut World, client: Option<u8>, sub: u8, call: Call, bytes: &[u8]) -> Told
    requires client { ForSome client (λ c. c ≤ 15) }
    requires sub { sub ≤ 15 }
    requires second { (second_of call (record { 0 = sub })).0 ≤ 15 }
    requires caller { is_card_event call ≡ is_none client }
{
    let client = match client {
        Some(c) => Some(ClientId(c)),
        None => None,
    };
    world.step(
        &Event {
            client,
            sub: SubId(sub),
            call,
        },
        bytes,
    )
}

fn shows(reply: Reply, state: State, woken: u16) -> Told {
    Told {
        reply,
        state: Some(state),
        woken,
    }
}

#[test]
fn links_are_refused_and_end(rt: HostRuntime) {
    let mut world = World::new(rt.alloc());
    for k in 0..3 {
        assert_eq!(rt;
            world.declare(SubId(k), Model::Basic, Dir::Playback),
            Reply::Ok
        );
        assert_eq!(rt;
            told(&mut world, Some(k), k, Call::OpenSub),
            shows(Reply::Ok, State::Opened, 0)
        );
        assert_eq!(rt;
            told(&mut world, Some(k), k, Call::HwParams(SMALL)),
            shows(Reply::Ok, State::Setup, 0)
        );
    }
    let ok = shows(Reply::Ok, State::Setup, 0);
    let einval = shows(Reply::Err(Errno::Einval), State::Setup, 0);
    let linked = shows(Reply::Err(Errno::Ealready), State::Setup, 0);
    assert_eq!(rt; told(&mut world, Some(0), 0, Call::Link(SubId(0))), einval);
    assert_eq!(rt; told(&mut world, Some(0), 0, Call::Link(SubId(1))), ok);
    assert_eq!(rt; told(&mut world, Some(0), 2, Call::Link(SubId(1))), linked);
    assert_eq!(rt; told(&mut world, Some(0), 1, Call::Unlink), ok);
    assert_eq!(rt; told(&mut world, Some(0), 0, Call::Unlink), linked);
    assert_eq!(rt; world.set_long(31), Reply::Err(Errno::Ebusy));
    assert_eq!(rt;
        world.declare(SubId(2), Model::Basic, Dir::Playback),
        Reply::Err(Errno::Ebusy)
    );
}

#[test]
fn a_linked_start_fails_as_a_whole_and_a_drain_wakes_its_client(rt: HostRuntime) {
    let mut world = World::new(rt.alloc());
    for k in 0..2 {
        assert_eq!(rt;
            world.declare(SubId(k), Model::Basic, Dir::Playback),
            Reply::Ok
        );
        assert_eq!(rt;
            told(&mut world, Some(k), k, Call::OpenSub).reply,
            Reply::Ok
        );
        assert_eq!(rt;
            told(&mut world, Some(k), k, Call::HwParams(SMALL)).reply,
            Reply::Ok
        );
    }
    assert_eq!(rt;
        told(&mut world, Some(0), 0, Call::Link(SubId(1))).reply,
        Reply::Ok
    );
    assert_eq!(rt;
        told(&mut world, Some(0), 1, Call::Prepare),
        shows(Reply::Ok, State::Prepared, 0)
    );
    // Nothing stops them.
    let sw = SwParams {
        avail_min: 2,
        start_threshold: 5,
        stop_threshold: 1 << 30,
        silence_threshold: 0,
        silence_size: 0,
    };
    for k in 0..2 {
        assert_eq!(rt;
            told(&mut world, Some(k), k, Call::SwParams(sw)).reply,
            Reply::Ok
        );
    }
    assert_eq!(rt;
        told(&mut world, None, 1, Call::FailAt(1)),
        shows(Reply::Ok, State::Prepared, 0)
    );
    assert_eq!(rt;
        told(&mut world, Some(0), 0, Call::Start),
        shows(Reply::Err(Errno::Eio), State::Prepared, 0)
    );
    assert_eq!(rt;
        told(&mut world, None, 0, Call::MoveBy(1)),
        shows(Reply::Idle, State::Prepared, 0)
    );
    assert_eq!(rt;
        told(&mut world, Some(0), 0, Call::Start),
        shows(Reply::Ok, State::Running, 0)
    );
    assert_eq!(rt;
        told(&mut world, None, 1, Call::MoveBy(2)),
        shows(Reply::Moved(2), State::Running, 0)
    );
    assert_eq!(rt; world.moved(SubId(1)), [0, 0].as_slice());
    assert_eq!(rt; world.moved(SubId(0)).len(), 0);
    assert_eq!(rt; world.moved_total(SubId(1)), 2);
    assert_eq!(rt;
        told(&mut world, Some(3), 0, Call::Drain(Mode::Block)),
        shows(Reply::Asleep, State::Draining, 0)
    );
    assert_eq!(rt; world.moved(SubId(1)).len(), 0);
    assert_eq!(rt;
        told(&mut world, Some(3), 1, Call::Start),
        shows(Reply::Busy(ClientId(3)), State::Draining, 0)
    );
    assert_eq!(rt;
        told(&mut world, None, 0, Call::Irq),
        shows(Reply::Ok, State::Setup, 0)
    );
    assert_eq!(rt;
        told(&mut world, None, 1, Call::Irq),
        shows(Reply::Ok, State::Setup, 8)
    );
    assert_eq!(rt; world.result(ClientId(3)).len(), 0);
}

#[test]
fn a_write_that_sleeps_goes_on_with_its_own_bytes(rt: HostRuntime) {
    let mut world = World::new(rt.alloc());
    let calls = [Call::OpenSub, Call::HwParams(SMALL), Call::Prepare];
    assert_eq!(rt;
        world.declare(SubId(0), Model::Basic, Dir::Playback),
        Reply::Ok
    );
    for call in calls {
        assert_eq!(rt; told(&mut world, Some(1), 0, call).reply, Reply::Ok);
    }
    let write = Call::Write(Layout::Interleaved, Mode::Block);
    let asleep = shows(Reply::Asleep, State::Running, 0);
    assert_eq!(rt;
        told_with(&mut world, Some(1), 0, write, &[1, 2, 3, 4, 5, 6]),
        asleep
    );
    assert_eq!(rt;
        told(&mut world, Some(1), 3, Call::Poll),
        shows(Reply::Busy(ClientId(1)), State::Closed, 0)
    );
    assert_eq!(rt; told(&mut world, Some(1), 0, Call::Go), asleep);
    assert_eq!(rt;
        told(&mut world, Some(2), 0, Call::Go),
        Told {
            reply: Reply::Err(Errno::Einval),
            state: None,
            woken: 0,
        }
    );
    assert_eq!(rt;
        told(&mut world, None, 0, Call::MoveBy(3)),
        shows(Reply::Moved(3), State::Running, 0)
    );
    assert_eq!(rt; world.moved(SubId(0)), [1, 2, 3].as_slice());
    assert_eq!(rt;
        told(&mut world, None, 0, Call::Irq),
        shows(Reply::Ok, State::Running, 2)
    );
    assert_eq!(rt;
        told_with(&mut world, Some(1), 7, Call::Go, &[9]),
        shows(Reply::Frames(6), State::Running, 0)
    );
    assert_eq!(rt;
        told(&mut world, None, 0, Call::MoveBy(3)),
        shows(Reply::Moved(3), State::Running, 0)
    );
    assert_eq!(rt; world.moved(SubId(0)), [4, 5, 6].as_slice());
    assert_eq!(rt; world.result(ClientId(1)).len(), 0);
}

// A blocking read of six frames of two samples, of which the card gives so many in two parts.
fn read_in_parts(world: &mut World, access: Access, layout: Layout, end: Call) -> Told
    requires second { (second_of end (record { 0 = 0 })).0 ≤ 15 }
    requires card { is_card_event end ≡ true }
{
    let config = Config {
        access,
        format: Format::U8,
        channels: 2,
        rate: 8000,
        period: 2,
        periods: 4,
    };
    let _ = told(world, Some(4), 0, Call::OpenSub);
    let _ = told(world, Some(4), 0, Call::HwParams(config));
    let _ = told_with(
        world,
        None,
        0,
        Call::Give,
        &[1, 2, 3, 4, 5, 6, 7, 8, 9, 10, 11, 12],
    );
    let _ = told(world, Some(4), 0, Call::Prepare);
    let _ = told(world, Some(4), 0, Call::Read(layout, Mode::Block, 6));
    let _ = told(world, None, 0, Call::MoveBy(3));
    let _ = told(world, None, 0, Call::Irq);
    let _ = told(world, Some(4), 0, Call::Go);
    let _ = told(world, None, 0, end);
    let _ = told(world, None, 0, Call::Irq);
    told(world, Some(4), 0, Call::Go)
}

#[test]
fn a_read_tells_the_bytes_of_all_its_steps(rt: HostRuntime) {
    let whole = Call::MoveBy(3);
    let mut world = World::new(rt.alloc());
    assert_eq!(rt;
        world.declare(SubId(0), Model::Duplex, Dir::Capture),
        Reply::Ok
    );
    assert_eq!(rt;
        read_in_parts(
            &mut world,
            Access::RwInterleaved,
            Layout::Interleaved,
            whole
        ),
        shows(Reply::Frames(6), State::Running, 0)
    );
    assert_eq!(rt;
        world.result(ClientId(4)),
        [1, 2, 3, 4, 5, 6, 7, 8, 9, 10, 11, 12].as_slice()
    );
    let _ = told(&mut world, Some(4), 0, Call::CloseSub);
    assert_eq!(rt;
        read_in_parts(&mut world, Access::RwNoninterleaved, Layout::Planar, whole),
        shows(Reply::Frames(6), State::Running, 0)
    );
    assert_eq!(rt;
        world.result(ClientId(4)),
        [1, 3, 5, 7, 9, 11, 2, 4, 6, 8, 10, 12].as_slice()
    );
}

#[test]
fn planar_samples_close_up_where_fewer_are_read(rt: HostRuntime) {
    let gone = Call::Unplug;
    let mut world = World::new(rt.alloc());
    assert_eq!(rt;
        world.declare(SubId(0), Model::Duplex, Dir::Capture),
        Reply::Ok
    );
    assert_eq!(rt;
        read_in_parts(&mut world, Access::RwNoninterleaved, Layout::Planar, gone),
        shows(Reply::Frames(3), State::Disconnected, 0)
    );
    assert_eq!(rt; world.result(ClientId(4)), [1, 3, 5, 2, 4, 6].as_slice());
}
