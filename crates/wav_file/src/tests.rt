use super::*;
use pcm_base::Format;
use std::alloc::Global;
use std::test::Fail;

/// Three mono frames of S16_LE at 8000 Hz, in a "data" chunk that says 1000 bytes.
const SHORT_DATA: [u8; 50] =
    *b"RIFF\x0c\x04\0\0WAVEfmt \x10\0\0\0\x01\0\x01\0\x40\x1f\0\0\x80\x3e\0\0\x02\0\x10\0data\xe8\x03\0\0\x01\0\x02\0\x03\0";

/// The same with a "LIST" chunk of odd size before, and one frame of U8.
const ODD_CHUNK: [u8; 55] =
    *b"RIFF\0\0\0\0WAVELIST\x01\0\0\0x\0fmt \x10\0\0\0\x01\0\x01\0\x40\x1f\0\0\x40\x1f\0\0\x01\0\x08\0data\x01\0\0\0\x7f";

/// A mono frame of S24_LE at 8000 Hz, in an extensible file.
const EXTENSIBLE: [u8; 72] =
    *b"RIFF\x40\0\0\0WAVEfmt \x28\0\0\0\xfe\xff\x01\0\x40\x1f\0\0\0\x7d\0\0\x04\0\x20\0\x16\0\x18\0\0\0\0\0\x01\0\0\0\0\0\x10\0\x80\0\0\xaa\0\x38\x9b\x71data\x04\0\0\0\0\x01\x02\x03";

fn frame_bytes_read(alloc: Global, bytes: &[u8]) -> Result<usize, WavError> {
    let wav = read_wav(alloc, bytes)?;
    Ok(wav.frames.len())
}

fn with_bytes<const N: usize>(file: [u8; N], changes: [(usize, u8); 2]) -> [u8; N] {
    let mut changed = file;
    for (at, byte) in changes {
        if at < N {
            changed[at] = byte;
        }
    }
    changed
}

#[test]
fn the_frames_that_are_there_are_read(rt: HostRuntime) -> Result<(), Fail> {
    let wav = read_wav(rt.alloc(), &SHORT_DATA)?;
    assert_eq!(rt; wav.format, Format::S16Le);
    assert_eq!(rt; wav.channels, 1);
    assert_eq!(rt; wav.rate, 8000);
    assert_eq!(rt; wav.frames.as_slice(), [1, 0, 2, 0, 3, 0].as_slice());
    Ok(())
}

#[test]
fn a_file_cut_at_each_length(rt: HostRuntime) {
    for len in 0..50 {
        let want = match len {
            0..=11 => Err(WavError::NotRiff),
            12..=19 => Err(WavError::NoFmt),
            20..=35 => Err(WavError::BadFmt(12)),
            36..=43 => Err(WavError::NoData),
            44 | 45 => Ok(0),
            46 | 47 => Ok(2),
            _ => Ok(4),
        };
        assert_eq!(rt;
            frame_bytes_read(rt.alloc(), &SHORT_DATA[..len]),
            want,
            "{len} bytes"
        );
    }
}

#[test]
fn each_wrong_field_is_named(rt: HostRuntime) {
    let cases = [
        ([(3, b'X'), (3, b'X')], WavError::NotRiff),
        ([(11, b'e'), (11, b'e')], WavError::NotRiff),
        ([(12, b'F'), (12, b'F')], WavError::NoFmt),
        ([(36, b'D'), (36, b'D')], WavError::NoData),
        ([(16, 15), (20, 3)], WavError::BadFmt(16)),
        ([(16, 40), (20, 3)], WavError::BadFmt(12)),
        ([(20, 3), (16, 17)], WavError::NotPcm(3)),
        ([(20, 0xfe), (21, 0xff)], WavError::BadFmt(16)),
        ([(16, 17), (22, 0)], WavError::BadFmt(16)),
        ([(22, 0), (34, 12)], WavError::BadFmt(22)),
        ([(22, 9), (34, 12)], WavError::BadFmt(22)),
        ([(24, 0), (25, 0)], WavError::BadFmt(24)),
        ([(34, 12), (32, 4)], WavError::Width(12)),
        ([(32, 4), (32, 4)], WavError::BadFmt(32)),
    ];
    for (changes, want) in cases {
        assert_eq!(rt;
            frame_bytes_read(rt.alloc(), &with_bytes(SHORT_DATA, changes)),
            Err(want),
            "{want:?}"
        );
    }
}

#[test]
fn an_extensible_file_cut_at_each_length(rt: HostRuntime) {
    for len in 0..73 {
        let want = match len {
            0..=11 => Err(WavError::NotRiff),
            12..=19 => Err(WavError::NoFmt),
            20..=59 => Err(WavError::BadFmt(12)),
            60..=67 => Err(WavError::NoData),
            68..=71 => Ok(0),
            _ => Ok(4),
        };
        assert_eq!(rt;
            frame_bytes_read(rt.alloc(), &EXTENSIBLE[..len]),
            want,
            "{len} bytes"
        );
    }
}

#[test]
fn each_wrong_field_of_an_extensible_file_is_named(rt: HostRuntime) {
    let cases = [
        ([(16, 18), (44, 3)], WavError::BadFmt(16)),
        ([(16, 41), (44, 3)], WavError::BadFmt(16)),
        ([(20, 1), (21, 0)], WavError::BadFmt(16)),
        ([(20, 3), (16, 18)], WavError::NotPcm(65_283)),
        ([(44, 3), (22, 0)], WavError::NotPcm(3)),
        ([(59, 0), (22, 9)], WavError::NotPcm(1)),
        ([(22, 0), (38, 33)], WavError::BadFmt(22)),
        ([(24, 0), (25, 0)], WavError::BadFmt(24)),
        ([(34, 12), (38, 33)], WavError::Width(12)),
        ([(38, 33), (32, 8)], WavError::Width(33)),
        ([(38, 25), (34, 24)], WavError::Width(25)),
        ([(32, 8), (36, 0)], WavError::BadFmt(32)),
    ];
    for (changes, want) in cases {
        assert_eq!(rt;
            frame_bytes_read(rt.alloc(), &with_bytes(EXTENSIBLE, changes)),
            Err(want),
            "{want:?}"
        );
    }
}

#[test]
fn the_valid_bits_tell_the_format(rt: HostRuntime) -> Result<(), Fail> {
    let cases = [
        (32, 24, 4, Format::S24Le, [1, 2, 3, 0]),
        (32, 32, 4, Format::S32Le, [0, 1, 2, 3]),
        (32, 20, 4, Format::S32Le, [0, 1, 2, 3]),
        (32, 0, 4, Format::S32Le, [0, 1, 2, 3]),
        (16, 12, 2, Format::S16Le, [0, 1, 2, 3]),
        (8, 8, 1, Format::U8, [0, 1, 2, 3]),
    ];
    for (bits, valid, align, format, frames) in cases {
        let file = with_bytes(EXTENSIBLE, [(34, bits), (38, valid)]);
        let file = with_bytes(file, [(32, align), (40, 4)]);
        let wav = read_wav(rt.alloc(), &file)?;
        assert_eq!(rt; wav.format, format, "{bits} {valid}");
        assert_eq!(rt; wav.frames.as_slice(), frames.as_slice(), "{bits} {valid}");
    }
    Ok(())
}

#[test]
fn the_unused_byte_of_s24_le_is_not_written(rt: HostRuntime) -> Result<(), Fail> {
    let wav = Wav {
        format: Format::S24Le,
        channels: 1,
        rate: 8000,
        frames: Vec::from_slice(rt.alloc(), &[1, 2, 3, 0xff])?,
    };
    assert_eq!(rt;
        write_wav(rt.alloc(), &wav)?.as_slice(),
        EXTENSIBLE.as_slice()
    );
    Ok(())
}

#[test]
fn an_odd_chunk_is_padded(rt: HostRuntime) -> Result<(), Fail> {
    let wav = read_wav(rt.alloc(), &ODD_CHUNK)?;
    assert_eq!(rt; wav.format, Format::U8);
    assert_eq!(rt; wav.frames.as_slice(), [0x7f].as_slice());
    Ok(())
}

#[test]
fn data_before_any_format(rt: HostRuntime) {
    let file =
        *b"RIFF\0\0\0\0WAVEdata\0\0\0\0fmt \x10\0\0\0\x01\0\x01\0\x40\x1f\0\0\x40\x1f\0\0\x01\0\x08\0";
    assert_eq!(rt; frame_bytes_read(rt.alloc(), &file), Err(WavError::NoFmt));
}

#[test]
fn an_odd_count_of_bytes_is_written_with_a_pad(rt: HostRuntime) -> Result<(), Fail> {
    let five = Wav {
        format: Format::U8,
        channels: 1,
        rate: 8000,
        frames: Vec::from_slice(rt.alloc(), &[1, 2, 3, 0, 0])?,
    };
    let want =
        *b"RIFF\x2a\0\0\0WAVEfmt \x10\0\0\0\x01\0\x01\0\x40\x1f\0\0\x40\x1f\0\0\x01\0\x08\0data\x05\0\0\0\x01\x02\x03\0\0\0";
    assert_eq!(rt; write_wav(rt.alloc(), &five)?.as_slice(), want.as_slice());
    let three = Wav {
        format: Format::U8,
        channels: 1,
        rate: 8000,
        frames: Vec::from_slice(rt.alloc(), &[1, 2, 3])?,
    };
    let want =
        *b"RIFF\x28\0\0\0WAVEfmt \x10\0\0\0\x01\0\x01\0\x40\x1f\0\0\x40\x1f\0\0\x01\0\x08\0data\x03\0\0\0\x01\x02\x03\0";
    assert_eq!(rt; write_wav(rt.alloc(), &three)?.as_slice(), want.as_slice());
    Ok(())
}
