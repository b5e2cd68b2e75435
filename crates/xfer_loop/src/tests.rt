// Turns over the emulated card.
ghost use Rattle.std.specs.Prelude.{◌≡◌, true};
ghost use Rattle.pcm_base.specs.model.Sound.{is_stop};

use super::*;
use card_emul::AnyCard;
use pcm_base::{Access, Act, Config, Dir, Format, Layout, Model, SubId, Updated};
use sleepers::Sleepers;
use std::alloc::{AllocError, Global};

// Two periods of two one-byte frames.
const SMALL: Config = Config {
    access: Access::RwInterleaved,
    format: Format::U8,
    channels: 1,
    rate: 8000,
    period: 2,
    periods: 2,
};

fn make(stream: &mut Substream<AnyCard>, act: Act) -> Result<(), Errno>
    requires { is_stop act ≡ true }
{
    stream.vote(act)?;
    match stream.do_act(act) {
        Ok(()) => {
            stream.post_act(act);
            Ok(())
        }
        Err(_) => {
            stream.undo_act(act);
            Err(Errno::Eio)
        }
    }
}

fn turn_of(member: &mut Member<AnyCard>, xfer: &mut Xfer, io: &mut [u8]) -> XferStep {
    let Some(shape) = member.stream.shape() else {
        return XferStep::Refuse(Errno::Ebadfd);
    };
    let size = io.len() as u64;
    if size % shape.frame_bytes != 0
        || xfer.moved > size
        || xfer.rest > size
        || size / shape.frame_bytes != xfer.moved + xfer.rest
    {
        return XferStep::Refuse(Errno::Einval);
    }
    transfer(member, xfer, io)
}

fn prepared(alloc: Global, dir: Dir, config: &Config) -> Member<AnyCard> {
    let card = AnyCard::new(alloc, Model::Basic, dir);
    let mut stream = Substream::new(alloc, card, dir, 2_147_483_647);
    let _ = stream.open_sub();
    let _ = stream.hw_params(config, false);
    let _ = make(&mut stream, Act::Prepare { stop_first: false });
    Member {
        sub: SubId(0),
        stream,
        sleepers: Sleepers::new(),
    }
}

#[test]
fn a_write_goes_turn_by_turn(rt: HostRuntime) {
    let mut member = prepared(rt.alloc(), Dir::Playback, &SMALL);
    let mut io = [1, 2, 3, 4, 5, 6];
    let mut xfer = Xfer {
        writing: true,
        layout: Layout::Interleaved,
        mode: Mode::Block,
        rest: 6,
        moved: 0,
    };
    assert_eq!(rt;
        turn_of(&mut member, &mut xfer, &mut io),
        XferStep::WantsStart
    );
    assert_eq!(rt; (xfer.rest, xfer.moved), (2, 4));
    assert_eq!(rt; make(&mut member.stream, Act::Start), Ok(()));
    assert_eq!(rt; turn_of(&mut member, &mut xfer, &mut io), XferStep::Wait(2));
    assert_eq!(rt; member.stream.dma(2), Ok(2));
    assert_eq!(rt; member.stream.update(), Updated::Nothing);
    assert_eq!(rt;
        turn_of(&mut member, &mut xfer, &mut io),
        XferStep::Moved(2)
    );
    assert_eq!(rt;
        turn_of(&mut member, &mut xfer, &mut io),
        XferStep::Moved(0)
    );
}

fn give(stream: &mut Substream<AnyCard>, frames: &[u8]) -> Result<(), AllocError> {
    match stream.shape() {
        Some(shape) if frames.len() as u64 % shape.frame_bytes == 0 => stream.give(frames),
        _ => Ok(()),
    }
}

#[test]
fn a_read_goes_turn_by_turn(rt: HostRuntime) {
    let mut member = prepared(rt.alloc(), Dir::Capture, &SMALL);
    let mut io = [0; 3];
    let mut xfer = Xfer {
        writing: false,
        layout: Layout::Interleaved,
        mode: Mode::Block,
        rest: 3,
        moved: 0,
    };
    assert_eq!(rt; give(&mut member.stream, &[0x0a, 0x0b]), Ok(()));
    assert_eq!(rt; make(&mut member.stream, Act::Start), Ok(()));
    assert_eq!(rt; turn_of(&mut member, &mut xfer, &mut io), XferStep::Wait(2));
    assert_eq!(rt; member.stream.dma(1), Ok(1));
    assert_eq!(rt; member.stream.update(), Updated::Nothing);
    assert_eq!(rt;
        turn_of(&mut member, &mut xfer, &mut io),
        XferStep::Moved(1)
    );
    xfer.mode = Mode::NonBlock;
    assert_eq!(rt;
        turn_of(&mut member, &mut xfer, &mut io),
        XferStep::Refuse(Errno::Eagain)
    );
    assert_eq!(rt; member.stream.dma(1), Ok(1));
    assert_eq!(rt; member.stream.update(), Updated::Nothing);
    assert_eq!(rt; make(&mut member.stream, Act::Drain), Ok(()));
    assert_eq!(rt;
        turn_of(&mut member, &mut xfer, &mut io),
        XferStep::Moved(1)
    );
    assert_eq!(rt; turn_of(&mut member, &mut xfer, &mut io), XferStep::Drained);
    assert_eq!(rt; io, [0x0a, 0x0b, 0]);
}

#[test]
fn samples_that_lie_by_channel_go_frame_by_frame(rt: HostRuntime) {
    let config = Config {
        access: Access::RwNoninterleaved,
        channels: 2,
        ..SMALL
    };
    let mut xfer = Xfer {
        writing: true,
        layout: Layout::Planar,
        mode: Mode::NonBlock,
        rest: 2,
        moved: 0,
    };
    let mut player = prepared(rt.alloc(), Dir::Playback, &config);
    let mut io = [0x01, 0x02, 0x11, 0x12];
    assert_eq!(rt;
        turn_of(&mut player, &mut xfer, &mut io),
        XferStep::WantsStart
    );
    assert_eq!(rt; make(&mut player.stream, Act::Start), Ok(()));
    assert_eq!(rt; player.stream.dma(2), Ok(2));
    assert_eq!(rt;
        player.stream.card().taken(),
        [0x01, 0x11, 0x02, 0x12].as_slice()
    );
    let mut recorder = prepared(rt.alloc(), Dir::Capture, &config);
    assert_eq!(rt;
        give(&mut recorder.stream, &[0x01, 0x11, 0x02, 0x12]),
        Ok(())
    );
    assert_eq!(rt; make(&mut recorder.stream, Act::Start), Ok(()));
    assert_eq!(rt; recorder.stream.dma(2), Ok(2));
    assert_eq!(rt; recorder.stream.update(), Updated::Nothing);
    xfer = Xfer {
        writing: false,
        rest: 2,
        moved: 0,
        ..xfer
    };
    io = [0; 4];
    assert_eq!(rt;
        turn_of(&mut recorder, &mut xfer, &mut io),
        XferStep::Moved(2)
    );
    assert_eq!(rt; io, [0x01, 0x02, 0x11, 0x12]);
}
