// Worked examples over the emulated card.
ghost use Rattle.std.specs.Prelude.{◌≡◌, true};
ghost use Rattle.pcm_base.specs.model.Sound.{is_stop};

use super::*;
use card_emul::AnyCard;
use pcm_base::{Act, Format, Model};

// Two periods of two one-byte frames.
const SMALL: Config = Config {
    access: Access::MmapInterleaved,
    format: Format::U8,
    channels: 1,
    rate: 8000,
    period: 2,
    periods: 2,
};

fn make(stream: &mut Substream<AnyCard>, act: Act) -> Result<(), Errno>
    requires { is_stop act ≡ true }
{
    stream.vote(act)?;
    match stream.do_act(act) {
        Ok(()) => {
            stream.post_act(act);
            Ok(())
        }
        Err(_) => {
            stream.undo_act(act);
            Err(Errno::Eio)
        }
    }
}

fn load(stream: &Substream<AnyCard>, offset: u64, out: &mut [u8]) -> Result<u64, Errno> {
    match stream.shape() {
        Some(shape) if out.len() as u64 % shape.frame_bytes == 0 => load_frames(
            stream, offset, out,
        ),
        _ => Err(Errno::Einval),
    }
}

fn sync(stream: &mut Substream<AnyCard>, p: u64) -> Result<(), Errno> {
    match stream.shape() {
        Some(_) => stream.sync(p),
        None => Err(Errno::Ebadfd),
    }
}

#[test]
fn stored_frames_are_taken(rt: HostRuntime) {
    let card = AnyCard::new(rt.alloc(), Model::Basic, Dir::Playback);
    let mut stream = Substream::new(rt.alloc(), card, Dir::Playback, 2_147_483_647);
    assert_eq!(rt; stream.open_sub(), Ok(()));
    assert_eq!(rt; map_sub(&mut stream), Err(Errno::Ebadfd));
    assert_eq!(rt; stream.hw_params(&SMALL, false), Ok(()));
    assert_eq!(rt; store_frames(&mut stream, 0, &[1]), Err(Errno::Einval));
    assert_eq!(rt; map_sub(&mut stream), Ok(()));
    assert_eq!(rt;
        make(&mut stream, Act::Prepare { stop_first: false }),
        Ok(())
    );
    assert_eq!(rt; store_frames(&mut stream, 2, &[0x0a, 0x0b]), Ok(2));
    assert_eq!(rt;
        store_frames(&mut stream, 3, &[0x0c, 0x0d]),
        Err(Errno::Einval)
    );
    assert_eq!(rt; sync(&mut stream, 4), Ok(()));
    let page = page_of(&stream);
    assert_eq!(rt; (page.hw, page.appl, page.avail), (0, 4, 0));
    let mut out = [0; 3];
    assert_eq!(rt; load(&stream, 1, &mut out), Ok(3));
    assert_eq!(rt; out, [0, 0x0a, 0x0b]);
    assert_eq!(rt; unmap_sub(&mut stream), Ok(()));
    assert_eq!(rt; unmap_sub(&mut stream), Err(Errno::Einval));
    assert_eq!(rt; make(&mut stream, Act::Start), Ok(()));
    assert_eq!(rt; stream.dma(3), Ok(3));
    assert_eq!(rt; stream.card().taken(), [0, 0, 0x0a].as_slice());
}

#[test]
fn a_capture_buffer_is_mapped_and_loaded(rt: HostRuntime) {
    let card = AnyCard::new(rt.alloc(), Model::Basic, Dir::Capture);
    let mut stream = Substream::new(rt.alloc(), card, Dir::Capture, 2_147_483_647);
    assert_eq!(rt; stream.open_sub(), Ok(()));
    assert_eq!(rt; stream.hw_params(&SMALL, false), Ok(()));
    for _ in 0..65_535 {
        assert_eq!(rt; map_sub(&mut stream), Ok(()));
    }
    assert_eq!(rt; map_sub(&mut stream), Err(Errno::Ebusy));
    assert_eq!(rt; store_frames(&mut stream, 0, &[1]), Err(Errno::Einval));
    assert_eq!(rt;
        make(&mut stream, Act::Prepare { stop_first: false }),
        Ok(())
    );
    assert_eq!(rt; make(&mut stream, Act::Start), Ok(()));
    assert_eq!(rt; stream.dma(1), Ok(1));
    let mut out = [9; 4];
    assert_eq!(rt; load(&stream, 0, &mut out), Ok(4));
    assert_eq!(rt; out, [0, 0, 0, 0]);
    assert_eq!(rt; load(&stream, 1, &mut out), Err(Errno::Einval));
}

// Two periods of two frames, a buffer of its own for each of two channels.
const APART: Config = Config {
    access: Access::MmapNoninterleaved,
    channels: 2,
    ..SMALL
};

#[test]
fn frames_are_stored_and_loaded_where_channels_lie_apart(rt: HostRuntime) {
    let card = AnyCard::new(rt.alloc(), Model::Basic, Dir::Playback);
    let mut stream = Substream::new(rt.alloc(), card, Dir::Playback, 2_147_483_647);
    assert_eq!(rt; stream.open_sub(), Ok(()));
    assert_eq!(rt; stream.hw_params(&APART, false), Ok(()));
    assert_eq!(rt; map_sub(&mut stream), Ok(()));
    assert_eq!(rt;
        make(&mut stream, Act::Prepare { stop_first: false }),
        Ok(())
    );
    assert_eq!(rt; store_frames(&mut stream, 1, &[1, 11, 2, 12]), Ok(2));
    assert_eq!(rt;
        store_frames(&mut stream, 1, &[1, 11, 2]),
        Err(Errno::Einval)
    );
    let mut out = [9; 6];
    assert_eq!(rt; load(&stream, 0, &mut out), Ok(3));
    assert_eq!(rt; out, [0, 0, 1, 11, 2, 12]);
    assert_eq!(rt; sync(&mut stream, 3), Ok(()));
    assert_eq!(rt; make(&mut stream, Act::Start), Ok(()));
    assert_eq!(rt; stream.dma(3), Ok(3));
    assert_eq!(rt; stream.card().taken(), [0, 0, 1, 11, 2, 12].as_slice());
}

fn give(stream: &mut Substream<AnyCard>, frames: &[u8]) -> bool {
    match stream.shape() {
        Some(shape) if frames.len() as u64 % shape.frame_bytes == 0 => stream.give(frames).is_ok(),
        _ => false,
    }
}

#[test]
fn captured_frames_are_loaded_where_channels_lie_apart(rt: HostRuntime) {
    let card = AnyCard::new(rt.alloc(), Model::Basic, Dir::Capture);
    let mut stream = Substream::new(rt.alloc(), card, Dir::Capture, 2_147_483_647);
    assert_eq!(rt; stream.open_sub(), Ok(()));
    assert_eq!(rt; stream.hw_params(&APART, false), Ok(()));
    assert_eq!(rt; map_sub(&mut stream), Ok(()));
    assert_eq!(rt;
        make(&mut stream, Act::Prepare { stop_first: false }),
        Ok(())
    );
    assert!(rt; give(&mut stream, &[1, 11, 2, 12, 3, 13]));
    assert_eq!(rt; make(&mut stream, Act::Start), Ok(()));
    assert_eq!(rt; stream.dma(3), Ok(3));
    let mut out = [9; 4];
    assert_eq!(rt; load(&stream, 1, &mut out), Ok(2));
    assert_eq!(rt; out, [2, 12, 3, 13]);
    assert_eq!(rt; sync(&mut stream, 2), Ok(()));
    assert_eq!(rt; page_of(&stream).appl, 2);
}
