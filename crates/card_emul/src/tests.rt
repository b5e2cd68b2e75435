// Worked examples.
use super::*;
use crate::channel::Channel;
use indirect_card::IndirectCard;
use pcm_base::{Card, CardFailed, CardModel, Dir, Errno, Model, Shape, Span, Trigger};
use std::test::Fail;

// Four periods of one frame, which is one byte.
const FOUR_FRAMES: Shape = Shape {
    frame_bytes: 1,
    channels: 1,
    period: 1,
    periods: 4,
    buffer: 4,
    boundary: 8,
};

fn span(least: u64, most: u64) -> Span {
    Span { least, most }
}

#[test]
fn each_model_has_its_row(rt: HostRuntime) {
    let basic = CardModel {
        accesses: 27,
        formats: 6,
        channels: span(1, 2),
        rate: span(8000, 48000),
        wide_rate: 48000,
        period: span(1, 8192),
        buffer_bytes: 65536,
        can_pause: true,
        can_resume: true,
    };
    let duplex = CardModel {
        accesses: 27,
        formats: 4294970447,
        channels: span(1, 8),
        rate: span(4000, 192000),
        wide_rate: 192000,
        period: span(1, 32768),
        buffer_bytes: 2097152,
        can_pause: true,
        can_resume: true,
    };
    let studio = CardModel {
        accesses: 27,
        formats: 4294968388,
        channels: span(1, 8),
        rate: span(44100, 192000),
        wide_rate: 96000,
        period: span(16, 8192),
        buffer_bytes: 1048576,
        can_pause: true,
        can_resume: true,
    };
    assert_eq!(rt; model_of(Model::Basic), basic);
    assert_eq!(rt; model_of(Model::Duplex), duplex);
    assert_eq!(rt; model_of(Model::Studio), studio);
    assert_eq!(rt; model_of(Model::Indirect), basic);
    assert_eq!(rt;
        model_of(Model::NoPause),
        CardModel {
            can_pause: false,
            ..basic
        }
    );
    assert_eq!(rt;
        model_of(Model::NoResume),
        CardModel {
            can_resume: false,
            ..basic
        }
    );
}

#[test]
fn a_plan_fails_at_its_entry(rt: HostRuntime) {
    let mut card = AnyCard::new(rt.alloc(), Model::Basic, Dir::Playback);
    assert_eq!(rt; card.fail_at(0), Err(Errno::Einval));
    assert_eq!(rt; card.fail_at(65), Err(Errno::Einval));
    for k in 1..65 {
        assert_eq!(rt; card.fail_at(k), Ok(()));
        for _ in 1..k {
            assert_eq!(rt; card.trigger(Trigger::Start), Ok(()));
            assert_eq!(rt; card.trigger(Trigger::Stop), Ok(()));
        }
        assert_eq!(rt; card.trigger(Trigger::Suspend), Ok(()));
        assert_eq!(rt; card.trigger(Trigger::Start), Err(CardFailed), "entry {k}");
        assert_eq!(rt; card.runs(), false);
    }
    for trigger in [
        Trigger::Start,
        Trigger::PausePush,
        Trigger::PauseRelease,
        Trigger::Resume,
    ] {
        assert_eq!(rt; card.fail_at(1), Ok(()));
        assert_eq!(rt; card.trigger(trigger), Err(CardFailed));
    }
    assert_eq!(rt; card.fail_at(1), Ok(()));
    card.clear_plan();
    assert_eq!(rt; card.trigger(Trigger::Start), Ok(()));
    card.undo(Trigger::Start);
    assert_eq!(rt; card.runs(), false);
}

#[test]
fn frames_are_taken_and_given(rt: HostRuntime) -> Result<(), Fail> {
    let mut card = AnyCard::new(rt.alloc(), Model::Duplex, Dir::Capture);
    assert_eq!(rt; card.position(), 0);
    card.set_up(&FOUR_FRAMES);
    card.reserve(6)?;
    card.take(&[1, 2, 3]);
    assert_eq!(rt; card.position(), 3);
    card.take(&[4, 5, 6]);
    assert_eq!(rt; card.position(), 2);
    assert_eq!(rt; card.taken(), [1, 2, 3, 4, 5, 6].as_slice());

    let mut out = [9; 2];
    card.give(&[7, 8, 9])?;
    card.give_into(&mut out);
    assert_eq!(rt; out, [7, 8]);
    assert_eq!(rt; card.position(), 0);
    card.give_into(&mut out);
    assert_eq!(rt; out, [9, 0]);
    card.give_into(&mut out);
    assert_eq!(rt; out, [0, 0]);
    card.to_start();
    assert_eq!(rt; card.position(), 0);
    Ok(())
}

#[test]
fn frames_pass_through_a_hardware_buffer(rt: HostRuntime) -> Result<(), Fail> {
    let thirty_two_frames = Shape {
        frame_bytes: 1,
        channels: 1,
        period: 8,
        periods: 4,
        buffer: 32,
        boundary: 64,
    };
    let mut card = IndirectCard::new(Channel::new(rt.alloc(), model_of(Model::Indirect)));
    card.set_up(&thirty_two_frames);
    assert_eq!(rt; card.trigger(Trigger::Start), Ok(()));
    card.reserve(20)?;
    card.take(&[
        0x00, 0x01, 0x02, 0x03, 0x04, 0x05, 0x06, 0x07, 0x08, 0x09, 0x0a, 0x0b, 0x0c, 0x0d, 0x0e,
        0x0f, 0x10, 0x11, 0x12, 0x13,
    ]);
    assert_eq!(rt; card.frame_at(0), [0x10].as_slice());
    assert_eq!(rt; card.frame_at(3), [0x13].as_slice());
    assert_eq!(rt; card.frame_at(4), [0x04].as_slice());
    assert_eq!(rt; card.passed(), 20);
    assert_eq!(rt; card.position(), 20);
    Ok(())
}

#[test]
fn a_card_of_the_indirect_model_takes_what_a_direct_one_does(rt: HostRuntime) -> Result<(), Fail> {
    let mut card = AnyCard::new(rt.alloc(), Model::Indirect, Dir::Playback);
    card.set_up(&FOUR_FRAMES);
    card.reserve(3)?;
    card.take(&[1, 2, 3]);
    assert_eq!(rt; card.position(), 3);
    assert_eq!(rt; card.taken(), [1, 2, 3].as_slice());

    let mut out = [9; 2];
    card.give(&[7])?;
    card.give_into(&mut out);
    assert_eq!(rt; out, [7, 0]);
    Ok(())
}
