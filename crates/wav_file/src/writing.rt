// Writing a file.
ghost use Rattle.std.specs.Prelude.{◌≡◌, ◌++◌, ◌<◌, ◌≤◌, length, IfOk, OnOk, IsOkUnless, IsErrOf};
ghost use Rattle.byteorder.specs.Endian.{little_bytes};
ghost use Rattle.wav_file.specs.Recordings.{clear_recording, recording};
ghost use Rattle.wav_file.specs.Grammar.{CanWrite, IsWav, body_size as body_size_of, extension, format_chunk, tag_of as tag_of_format, wav_bytes};

use crate::layout::{EXTENSIBLE, PCM, PCM_SUBTYPE};
use crate::samples::put_frames;
use crate::wav::{Wav, WavError};
use byteorder::{ByteOrder, LittleEndian};
use pcm_base::{Format, width_of};
use std::alloc::{AllocError, Global};

/// The bytes from the "WAVE" to the frames, less the body of the "fmt " chunk.
const HEAD_BYTES: usize = 20;

/// The greatest count of bytes of frames that is written: 64 MiB.
const MOST_FRAME_BYTES: usize = 67_108_864;

fn put_u16(out: &mut Vec<u8>, number: u16) -> Result<(), AllocError>
    ensures { OnOk result (out.new.items ≡ out.old.items ++ little_bytes 2 number) }
{
    let mut bytes = [0; 2];
    LittleEndian::write_u16(&mut bytes, number);
    out.extend_from_slice(&bytes)
}

fn put_u32(out: &mut Vec<u8>, number: u32) -> Result<(), AllocError>
    ensures { OnOk result (out.new.items ≡ out.old.items ++ little_bytes 4 number) }
{
    let mut bytes = [0; 4];
    LittleEndian::write_u32(&mut bytes, number);
    out.extend_from_slice(&bytes)
}

fn tag_of(format: Format) -> u16
    ensures { result ≡ tag_of_format format }
{
    match format {
        Format::S24Le => EXTENSIBLE,
        _ => PCM,
    }
}

/// The bytes of the body of the "fmt " chunk.
fn body_size(format: Format) -> u32
    ensures { result ≡ body_size_of format }
{
    match format {
        Format::S24Le => 40,
        _ => 16,
    }
}

/// Writes what the body of an extensible "fmt " chunk has more than a plain one: the size of the rest, the valid bits,
/// a channel mask that names none, and the subtype.
fn put_extension(out: &mut Vec<u8>, format: Format) -> Result<(), AllocError>
    ensures { OnOk result (out.new.items ≡ out.old.items ++ extension format) }
{
    match format {
        Format::S24Le => {
            put_u16(out, 22)?;
            put_u16(out, 24)?;
            put_u32(out, 0)?;
            out.extend_from_slice(&PCM_SUBTYPE)
        }
        _ => Ok(()),
    }
}

/// Writes the "fmt " chunk. The bytes per second are taken modulo 2^32.
fn put_format(out: &mut Vec<u8>, wav: &Wav) -> Result<(), AllocError>
    requires { CanWrite (recording wav.now) }
    ensures { OnOk result (out.new.items ≡ out.old.items ++ format_chunk (recording wav.now)) }
{
    let width = width_of(wav.format);
    let align = wav.channels * u64::from(width);
    let per_second = wav.rate * align % (1 << 32);
    out.extend_from_slice(b"fmt ")?;
    put_u32(out, body_size(wav.format))?;
    put_u16(out, tag_of(wav.format))?;
    put_u16(out, wav.channels as u16)?;
    put_u32(out, wav.rate as u32)?;
    put_u32(out, per_second as u32)?;
    put_u16(out, align as u16)?;
    put_u16(out, 8 * width as u16)?;
    put_extension(out, wav.format)?;
    Ok(())
}

/// The file that is written.
fn file_of(alloc: Global, wav: &Wav) -> Result<Vec<u8>, AllocError>
    requires writable { CanWrite (recording wav.now) }
    requires short { length wav.now.frames.items ≤ 67108864 }
    ensures { IfOk result (λ v. v.items ≡ wav_bytes (recording wav.now)) }
{
    let size = wav.frames.len();
    let pad = size % 2;
    let after_riff = HEAD_BYTES + body_size(wav.format) as usize + size + pad;
    let mut out = Vec::with_capacity(alloc, 8 + after_riff)?;
    out.extend_from_slice(b"RIFF")?;
    put_u32(&mut out, after_riff as u32)?;
    out.extend_from_slice(b"WAVE")?;
    put_format(&mut out, wav)?;
    out.extend_from_slice(b"data")?;
    put_u32(&mut out, size as u32)?;
    put_frames(&mut out, wav.format, &wav.frames)?;
    out.extend_from_slice(&[0][..pad])?;
    Ok(out)
}

/// Writes a WAV file: a "fmt " chunk of 16 bytes, or of 40 for S24_LE, and the frames as its "data" chunk, with a zero byte
/// behind an odd count of bytes. The unused byte of a sample of S24_LE is not written: its bytes a, b, c, d stand as 0, a,
/// b, c. More than 64 MiB of frames are `TooLong`.
pub fn write_wav(alloc: Global, wav: &Wav) -> Result<Vec<u8>, WavError>
    requires { CanWrite (recording wav.now) }
    ensures bytes { IfOk result (λ v. v.items ≡ wav_bytes (recording wav.now)) }
    // It is a WAV file of what was written, with the unused byte of each sample of S24_LE put to 0.
    ensures again { IfOk result (λ v. IsWav v.items (clear_recording (recording wav.now))) }
    // It fails where the frames are too long, with their count of bytes, and else only where memory runs out.
    ensures too_long { 67108864 < length wav.now.frames.items → IsErrOf result (WavError.TooLong (length wav.now.frames.items)) }
    ensures fits { length wav.now.frames.items ≤ 67108864 → IsOkUnless result WavError.Memory }
{
    let size = wav.frames.len();
    if size > MOST_FRAME_BYTES {
        return Err(WavError::TooLong(size as u64));
    }
    let file = file_of(alloc, wav)?;
    Ok(file)
}
