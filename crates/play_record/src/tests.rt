// Worked examples over the two devices.
use super::*;
use std::test::Fail;
use wav_file::read_wav;

// Five frames of U8 at 8000 Hz.
const FIVE: [u8; 50] =
    *b"RIFF\x2a\0\0\0WAVEfmt \x10\0\0\0\x01\0\x01\0\x40\x1f\0\0\x40\x1f\0\0\x01\0\x08\0data\x05\0\0\0\x01\x02\x03\x04\x05\0";

// Nine.
const NINE: [u8; 54] =
    *b"RIFF\x2e\0\0\0WAVEfmt \x10\0\0\0\x01\0\x01\0\x40\x1f\0\0\x40\x1f\0\0\x01\0\x08\0data\x09\0\0\0\x01\x02\x03\x04\x05\x06\x07\x08\x09\0";

#[test]
fn a_sound_is_played_and_padded_with_silence(rt: HostRuntime) -> Result<(), Fail> {
    let mut deck = Deck::new(rt.alloc())?;
    let wav = read_wav(rt.alloc(), &FIVE)?;
    let given = play(rt.alloc(), &mut deck.player, &wav, 2, 2);
    assert!(rt;
        matches!(&given, Ok(wav) if wav.frames.as_slice() == [1, 2, 3, 4, 5, 128].as_slice())
    );
    Ok(())
}

#[test]
fn a_sound_goes_round_the_buffer(rt: HostRuntime) -> Result<(), Fail> {
    let mut deck = Deck::new(rt.alloc())?;
    let wav = read_wav(rt.alloc(), &NINE)?;
    let given = play(rt.alloc(), &mut deck.player, &wav, 2, 2);
    let want = [1, 2, 3, 4, 5, 6, 7, 8, 9, 128];
    assert!(rt; matches!(&given, Ok(wav) if wav.frames.as_slice() == want.as_slice()));
    Ok(())
}

#[test]
fn a_sound_is_recorded_and_zero_frames_behind_it(rt: HostRuntime) -> Result<(), Fail> {
    let mut deck = Deck::new(rt.alloc())?;
    let wav = read_wav(rt.alloc(), &FIVE)?;
    let given = record_frames(rt.alloc(), &mut deck.recorder, &wav, 7);
    assert!(rt;
        matches!(&given, Ok(wav) if wav.frames.as_slice() == [1, 2, 3, 4, 5, 0, 0].as_slice())
    );
    Ok(())
}
