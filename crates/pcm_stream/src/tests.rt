// Worked examples over the emulated card.
ghost use Rattle.std.specs.Prelude.{◌≡◌, ◌<◌, ◌^◌, true};
ghost use Rattle.pcm_base.specs.model.Sound.{is_stop};

use super::*;
use card_emul::AnyCard;
use pcm_base::{
    Access, Act, Card, Config, Dir, Errno, Format, Layout, Model, State, SubId, SwParams, Updated,
};
use sleepers::Sleepers;
use std::alloc::{AllocError, Global};
use std::test::Fail;

// Two periods of two one-byte frames.
const SMALL: Config = Config {
    access: Access::RwInterleaved,
    format: Format::U8,
    channels: 1,
    rate: 8000,
    period: 2,
    periods: 2,
};

fn make(stream: &mut Substream<AnyCard>, act: Act) -> Result<(), Errno>
    requires { is_stop act ≡ true }
{
    stream.vote(act)?;
    match stream.do_act(act) {
        Ok(()) => {
            stream.post_act(act);
            Ok(())
        }
        Err(_) => {
            stream.undo_act(act);
            Err(Errno::Eio)
        }
    }
}

fn put(stream: &mut Substream<AnyCard>, layout: Layout, io: &[u8]) {
    let Some(shape) = stream.shape() else {
        return;
    };
    let size = io.len() as u64;
    let count = size / shape.frame_bytes;
    if size % shape.frame_bytes == 0 && count <= shape.buffer {
        stream.put_frames(layout, io, 0, count);
    }
}

#[test]
fn a_card_takes_what_was_put_and_finds_an_underrun(rt: HostRuntime) {
    let card = AnyCard::new(rt.alloc(), Model::Basic, Dir::Playback);
    let mut stream = Substream::new(rt.alloc(), card, Dir::Playback, 2_147_483_647);
    assert_eq!(rt;
        stream.hw_params(&SMALL, false),
        Err(HwRefusal::Errno(Errno::Enxio))
    );
    assert_eq!(rt; stream.open_sub(), Ok(()));
    assert_eq!(rt; stream.open_sub(), Err(Errno::Ebusy));
    assert!(rt; stream.config().is_none());
    assert_eq!(rt; stream.hw_params(&SMALL, false), Ok(()));
    assert_eq!(rt; stream.config().copied(), Some(SMALL));
    assert_eq!(rt; make(&mut stream, Act::Start), Err(Errno::Ebadfd));
    assert_eq!(rt;
        make(&mut stream, Act::Prepare { stop_first: false }),
        Ok(())
    );
    assert_eq!(rt; make(&mut stream, Act::Start), Err(Errno::Epipe));
    put(&mut stream, Layout::Interleaved, &[1, 2, 3]);
    assert_eq!(rt; stream.dma(1), Err(DmaRefusal::Idle));
    assert_eq!(rt; make(&mut stream, Act::Start), Ok(()));
    assert_eq!(rt; stream.dma(3), Ok(3));
    assert_eq!(rt; stream.card().taken(), [1, 2, 3].as_slice());
    assert_eq!(rt; stream.dma(1), Err(DmaRefusal::Late(0)));
    assert_eq!(rt; stream.moved_total(), 3);
    assert_eq!(rt; stream.update(), Updated::StopXrun);
    assert_eq!(rt; make(&mut stream, Act::Stop(State::Xrun)), Ok(()));
    assert_eq!(rt; stream.state(), State::Xrun);
}

#[test]
fn samples_that_lie_by_channel_are_taken_by_frame(rt: HostRuntime) {
    let config = Config {
        access: Access::RwNoninterleaved,
        channels: 2,
        ..SMALL
    };
    let card = AnyCard::new(rt.alloc(), Model::Basic, Dir::Playback);
    let mut stream = Substream::new(rt.alloc(), card, Dir::Playback, 2_147_483_647);
    assert_eq!(rt; stream.open_sub(), Ok(()));
    assert_eq!(rt; stream.hw_params(&config, false), Ok(()));
    assert_eq!(rt;
        make(&mut stream, Act::Prepare { stop_first: false }),
        Ok(())
    );
    put(&mut stream, Layout::Planar, &[0x01, 0x02, 0x11, 0x12]);
    assert_eq!(rt; make(&mut stream, Act::Start), Ok(()));
    assert_eq!(rt; stream.dma(2), Ok(2));
    assert_eq!(rt; stream.card().taken(), [0x01, 0x11, 0x02, 0x12].as_slice());
}

// Closes a substream that is not mapped.
fn close(stream: &mut Substream<AnyCard>) {
    if stream.mappings() == 0 {
        stream.close_sub();
    }
}

// From OPEN to a first start, with one frame written.
fn first_start(stream: &mut Substream<AnyCard>) -> Result<(), Errno> {
    if stream.hw_params(&SMALL, false) != Ok(()) {
        return Err(Errno::Einval);
    }
    make(stream, Act::Prepare { stop_first: false })?;
    put(stream, Layout::Interleaved, &[1]);
    make(stream, Act::Start)
}

#[test]
fn what_is_set_is_gone_after_a_close(rt: HostRuntime) {
    // Silence of a whole buffer of 4 frames is allowed, one frame more is not.
    let sw = SwParams {
        avail_min: 1,
        start_threshold: 3,
        stop_threshold: 8,
        silence_threshold: 4,
        silence_size: 4,
    };
    let card = AnyCard::new(rt.alloc(), Model::Basic, Dir::Playback);
    let mut stream = Substream::new(rt.alloc(), card, Dir::Playback, 2_147_483_647);
    assert_eq!(rt; stream.open_sub(), Ok(()));
    assert_eq!(rt; stream.sw_params(&sw), Err(Errno::Ebadfd));
    assert_eq!(rt; stream.fail_at(65), Err(Errno::Einval));
    assert_eq!(rt; stream.fail_at(1), Ok(()));
    assert_eq!(rt; first_start(&mut stream), Err(Errno::Eio));
    assert_eq!(rt; make(&mut stream, Act::Start), Ok(()));
    assert_eq!(rt; stream.hw_free(false), Err(Errno::Ebadfd));
    assert_eq!(rt;
        stream.sw_params(&SwParams {
            silence_threshold: 5,
            ..sw
        }),
        Err(Errno::Einval)
    );
    assert_eq!(rt; stream.sw_params(&sw), Ok(()));
    assert_eq!(rt; stream.sw(), Some(&sw));
    assert_eq!(rt; stream.fail_at(1), Ok(()));
    close(&mut stream);
    assert_eq!(rt; stream.state(), State::Closed);
    assert_eq!(rt; stream.hw_free(false), Err(Errno::Enxio));
    assert_eq!(rt; stream.open_sub(), Ok(()));
    assert_eq!(rt; first_start(&mut stream), Ok(()));
    assert_eq!(rt; make(&mut stream, Act::Stop(State::Setup)), Ok(()));
    assert_eq!(rt; stream.hw_free(true), Err(Errno::Ebusy));
    assert_eq!(rt; stream.hw_free(false), Ok(()));
    assert_eq!(rt; stream.state(), State::Opened);
}

fn get(stream: &mut Substream<AnyCard>, layout: Layout, io: &mut [u8]) {
    let Some(shape) = stream.shape() else {
        return;
    };
    let size = io.len() as u64;
    let count = size / shape.frame_bytes;
    if size % shape.frame_bytes == 0 && count <= shape.buffer {
        stream.get_frames(layout, io, 0, count);
    }
}

fn give(stream: &mut Substream<AnyCard>, frames: &[u8]) -> Result<(), AllocError> {
    match stream.shape() {
        Some(shape) if frames.len() as u64 % shape.frame_bytes == 0 => stream.give(frames),
        _ => Ok(()),
    }
}

#[test]
fn frames_that_a_card_gives_are_read(rt: HostRuntime) -> Result<(), Fail> {
    let config = Config {
        access: Access::RwNoninterleaved,
        channels: 2,
        ..SMALL
    };
    let card = AnyCard::new(rt.alloc(), Model::Basic, Dir::Capture);
    let mut stream = Substream::new(rt.alloc(), card, Dir::Capture, 2_147_483_647);
    assert_eq!(rt; stream.open_sub(), Ok(()));
    assert_eq!(rt; stream.hw_params(&config, false), Ok(()));
    assert_eq!(rt;
        make(&mut stream, Act::Prepare { stop_first: false }),
        Ok(())
    );
    give(&mut stream, &[1, 11, 2, 12, 3, 13])?;
    assert_eq!(rt; make(&mut stream, Act::Start), Ok(()));
    assert_eq!(rt; stream.dma(3), Ok(3));
    assert_eq!(rt; stream.update(), Updated::Nothing);
    let mut io = [0; 4];
    get(&mut stream, Layout::Planar, &mut io);
    assert_eq!(rt; io, [1, 2, 11, 12]);
    get(&mut stream, Layout::Interleaved, &mut io[2..]);
    assert_eq!(rt; io, [1, 2, 3, 13]);
    Ok(())
}

#[test]
fn an_unplugged_substream_is_closed_and_opened_again(rt: HostRuntime) {
    let card = AnyCard::new(rt.alloc(), Model::Basic, Dir::Playback);
    let mut stream = Substream::new(rt.alloc(), card, Dir::Playback, 2_147_483_647);
    assert_eq!(rt; stream.open_sub(), Ok(()));
    assert_eq!(rt; stream.hw_params(&SMALL, false), Ok(()));
    stream.unplug();
    assert_eq!(rt; stream.state(), State::Disconnected);
    assert_eq!(rt; stream.open_sub(), Err(Errno::Ebusy));
    assert_eq!(rt; stream.hw_free(false), Err(Errno::Ebadfd));
    assert_eq!(rt;
        make(&mut stream, Act::Prepare { stop_first: true }),
        Err(Errno::Ebadfd)
    );
    if stream.mappings() == 0 {
        stream.close_sub();
    }
    assert_eq!(rt; stream.open_sub(), Ok(()));
}

// A substream over a card of this model, opened, set up and prepared.
fn prepared(
    alloc: Global,
    model: Model,
    dir: Dir,
    long_max: u64,
) -> Result<Substream<AnyCard>, Errno>
    requires { long_max < 2 ^ 36 }
{
    let card = AnyCard::new(alloc, model, dir);
    let mut stream = Substream::new(alloc, card, dir, long_max);
    stream.open_sub()?;
    if stream.hw_params(&SMALL, false) != Ok(()) {
        return Err(Errno::Einval);
    }
    make(&mut stream, Act::Prepare { stop_first: false })?;
    Ok(stream)
}

fn rewind(stream: &mut Substream<AnyCard>, n: u64) -> Option<u64> {
    match stream.shape() {
        Some(_) => Some(stream.rewind(n)),
        None => None,
    }
}

fn forward(stream: &mut Substream<AnyCard>, n: u64) -> Option<u64> {
    match stream.shape() {
        Some(_) => Some(stream.forward(n)),
        None => None,
    }
}

fn sync(stream: &mut Substream<AnyCard>, p: u64) -> Result<(), Errno> {
    match stream.shape() {
        Some(_) => stream.sync(p),
        None => Err(Errno::Ebadfd),
    }
}

fn pointers(stream: &Substream<AnyCard>) -> (u64, u64, u64) {
    let page = stream.page();
    (page.hw, page.appl, page.avail)
}

#[test]
fn the_application_position_is_moved(rt: HostRuntime) -> Result<(), Errno> {
    let sw = SwParams {
        avail_min: 2,
        start_threshold: 5,
        stop_threshold: 4,
        silence_threshold: 0,
        silence_size: 0,
    };
    // With a LONG_MAX of 31 the boundary is 16.
    let mut stream = prepared(rt.alloc(), Model::Basic, Dir::Playback, 31)?;
    assert_eq!(rt; stream.sw_params(&sw), Ok(()));
    put(&mut stream, Layout::Interleaved, &[1, 2]);
    assert_eq!(rt; rewind(&mut stream, 9), Some(2));
    assert_eq!(rt; forward(&mut stream, 1), Some(1));
    assert_eq!(rt; sync(&mut stream, 16), Err(Errno::Einval));
    assert_eq!(rt; sync(&mut stream, 2), Ok(()));
    assert_eq!(rt; pointers(&stream), (0, 2, 2));
    assert_eq!(rt; make(&mut stream, Act::Start), Ok(()));
    assert_eq!(rt; stream.dma(3), Ok(3));
    assert_eq!(rt; stream.card().taken(), [1, 2, 0].as_slice());
    assert_eq!(rt; stream.update(), Updated::StopXrun);
    Ok(())
}

#[test]
fn pointers_go_round_the_boundary(rt: HostRuntime) -> Result<(), Errno> {
    let mut stream = prepared(rt.alloc(), Model::Basic, Dir::Playback, 31)?;
    put(&mut stream, Layout::Interleaved, &[1, 2, 3, 4]);
    assert_eq!(rt; make(&mut stream, Act::Start), Ok(()));
    for _ in 0..9 {
        assert_eq!(rt; stream.dma(3), Ok(3));
        assert_eq!(rt; stream.update(), Updated::Nothing);
        put(&mut stream, Layout::Interleaved, &[5, 6, 7]);
    }
    assert_eq!(rt; pointers(&stream), (11, 15, 0));
    Ok(())
}

#[test]
fn silence_is_put_behind_what_was_written(rt: HostRuntime) -> Result<(), Errno> {
    // Silence as far as the buffer goes.
    let sw = SwParams {
        avail_min: 2,
        start_threshold: 1,
        stop_threshold: 16,
        silence_threshold: 0,
        silence_size: 16,
    };
    let mut stream = prepared(rt.alloc(), Model::Basic, Dir::Playback, 31)?;
    assert_eq!(rt; stream.sw_params(&sw), Ok(()));
    put(&mut stream, Layout::Interleaved, &[1, 2, 3, 4]);
    assert_eq!(rt; make(&mut stream, Act::Start), Ok(()));
    assert_eq!(rt; stream.dma(3), Ok(3));
    assert_eq!(rt; stream.update(), Updated::Nothing);
    assert_eq!(rt; stream.dma(3), Ok(3));
    assert_eq!(rt; stream.card().taken(), [1, 2, 3, 4, 0x80, 0x80].as_slice());
    Ok(())
}

#[test]
fn acts_go_from_state_to_state(rt: HostRuntime) -> Result<(), Errno> {
    let mut fixed = prepared(rt.alloc(), Model::NoPause, Dir::Playback, 2_147_483_647)?;
    assert_eq!(rt; make(&mut fixed, Act::Pause), Err(Errno::Enosys));
    let mut stream = prepared(rt.alloc(), Model::Basic, Dir::Playback, 2_147_483_647)?;
    assert_eq!(rt; make(&mut stream, Act::Pause), Err(Errno::Ebadfd));
    put(&mut stream, Layout::Interleaved, &[1, 2]);
    assert_eq!(rt; make(&mut stream, Act::Start), Ok(()));
    assert_eq!(rt; make(&mut stream, Act::Pause), Ok(()));
    assert_eq!(rt; stream.state(), State::Paused);
    assert_eq!(rt; stream.dma(1), Err(DmaRefusal::Idle));
    assert_eq!(rt; make(&mut stream, Act::Release), Ok(()));
    assert_eq!(rt; make(&mut stream, Act::Suspend), Ok(()));
    assert_eq!(rt; stream.state(), State::Suspended);
    assert_eq!(rt; make(&mut stream, Act::Resume), Ok(()));
    assert_eq!(rt; make(&mut stream, Act::Drain), Ok(()));
    assert_eq!(rt; make(&mut stream, Act::Watch), Err(Errno::Eagain));
    assert_eq!(rt; stream.dma(2), Ok(2));
    assert_eq!(rt; stream.update(), Updated::DrainDone);
    assert_eq!(rt; stream.state(), State::Setup);
    assert_eq!(rt; make(&mut stream, Act::Watch), Ok(()));
    Ok(())
}

#[test]
fn what_was_captured_before_a_drain_is_read(rt: HostRuntime) -> Result<(), Errno> {
    let mut stream = prepared(rt.alloc(), Model::Basic, Dir::Capture, 2_147_483_647)?;
    assert_eq!(rt; give(&mut stream, &[1, 2, 3, 4, 5]), Ok(()));
    assert_eq!(rt; make(&mut stream, Act::Start), Ok(()));
    assert_eq!(rt; stream.dma(3), Ok(3));
    assert_eq!(rt; stream.update(), Updated::Nothing);
    assert_eq!(rt; make(&mut stream, Act::Drain), Ok(()));
    assert_eq!(rt; stream.state(), State::Draining);
    let mut io = [0; 3];
    get(&mut stream, Layout::Interleaved, &mut io);
    assert_eq!(rt; io, [1, 2, 3]);
    assert_eq!(rt; pointers(&stream), (3, 3, 0));
    Ok(())
}

// A member that no client has opened.
fn member(alloc: Global, sub: SubId) -> Member<AnyCard> {
    let card = AnyCard::new(alloc, Model::Basic, Dir::Playback);
    Member {
        sub,
        stream: Substream::new(alloc, card, Dir::Playback, 31),
        sleepers: Sleepers::new(),
    }
}

#[test]
fn members_keep_their_order(rt: HostRuntime) -> Result<(), Fail> {
    let mut members = Members::new(rt.alloc())?;
    members.add(member(rt.alloc(), SubId(4)));
    members.add(member(rt.alloc(), SubId(2)));
    members.add(member(rt.alloc(), SubId(7)));
    assert_eq!(rt; members.at_mut(2).stream.open_sub(), Ok(()));
    assert_eq!(rt; members.take(1).sub, SubId(2));
    assert_eq!(rt; members.len(), 2);
    assert_eq!(rt;
        (members.at(0).sub, members.at(1).sub),
        (SubId(4), SubId(7))
    );
    assert_eq!(rt; members.at(1).stream.state(), State::Opened);
    Ok(())
}
