// Reading a file.
ghost use Rattle.std.specs.Prelude.{◌≡◌, ◌⊎◌, ◌<◌, ◌≤◌, ◌^◌, List, ℕ, length, IfOk, IfErr, MatchResult};
ghost use Rattle.wav_file.specs.Recordings.{Recording, recording, frame_bytes, whole_frames};
ghost use Rattle.wav_file.specs.Chunks.{body_at};
ghost use Rattle.wav_file.specs.Grammar.{CanWrite, IsWav};
ghost use Rattle.wav_file.specs.Faults.{Answers, WavFault, is_riff as riff_test, recording_of};
ghost use Rattle.wav_file.specs.declared.wav.WavError.{WavError};
ghost use Rattle.wav_file.specs.declared.wav.WavError.TheVariants.{Memory};

use crate::chunk::{Chunk, Stop, body_size, find_chunk, is_data};
use crate::layout::{Layout, layout_of};
use crate::samples::frames_of;
use crate::wav::{Wav, WavError};
use std::alloc::Global;

/// Whether the file begins as a WAV file. The size that stands there is not looked at.
fn is_riff(bytes: &[u8]) -> bool
    ensures { result ≡ riff_test bytes.now }
{
    bytes.len() >= 12 && bytes.starts_with(b"RIFF") && bytes[8..].starts_with(b"WAVE")
}

/// The whole frames of a "data" chunk, or as many of them as are there.
fn frames_in<'a>(chunk: Chunk<'a>, layout: &Layout) -> &'a [u8]
    requires head { 8 ≤ length chunk.bytes.now }
    requires some { 1 ≤ layout.now.channels }
    requires few { layout.now.channels ≤ 8 }
    ensures { result.now ≡ whole_frames (frame_bytes layout.now.format layout.now.channels) (body_at chunk.entry.bytes.now) }
{
    let body = &chunk.bytes[8..];
    let held = body_size(chunk.bytes).min(body.len());
    &body[..held - held % layout.frame_bytes()]
}

/// What the file holds, its frames as they stand there.
fn sound_in(bytes: &[u8]) -> Result<(Layout, &[u8]), WavError>
    ensures answers { MatchResult result (λ x. Answers bytes.now (Ok (recording_of x.0 x.1.now))) (λ e. Answers bytes.now (Err e)) }
    ensures rate { IfOk result (λ x. x.0.rate < 2 ^ 32) }
{
    if !is_riff(bytes) {
        return Err(WavError::NotRiff);
    }
    let chunks = Chunk {
        at: 12,
        bytes: &bytes[12..],
    };
    let Some(first) = find_chunk(chunks, Stop::FormatOrData) else {
        return Err(WavError::NoFmt);
    };
    if is_data(first.bytes) {
        return Err(WavError::NoFmt);
    }
    let layout = layout_of(first)?;
    let Some(data) = find_chunk(first, Stop::Data) else {
        return Err(WavError::NoData);
    };
    Ok((layout, frames_in(data, &layout)))
}

/// Reads a WAV file. The chunk heads are looked at in order, up to the first "data" chunk, and the first thing that is
/// wrong is the error. The frames are the whole frames of that chunk, or as many as the file has. An extensible file with 24
/// valid bits in 32 is read as S24_LE, with the unused byte 0; any other as the format of its bits.
pub fn read_wav(alloc: Global, bytes: &[u8]) -> Result<Wav, WavError>
    // The bytes are a WAV file of what is read.
    ensures found { IfOk result (λ wav. IsWav bytes.now (recording wav)) }
    // What is read can be written.
    ensures writable { IfOk result (λ wav. CanWrite (recording wav)) }
    // A WAV file is read so, unless memory runs out.
    ensures only { (r : Recording) → IsWav bytes.now r → MatchResult result (λ wav. recording wav ≡ r) (λ e. e ≡ Memory) }
    // An error is the file's fault, unless memory ran out.
    ensures fault { IfErr result (λ e. (e ≡ Memory) ⊎ WavFault bytes.now e) }
    // A file with a fault is refused with it.
    ensures only_fault { (e : WavError) → WavFault bytes.now e → result ≡ Err e }
{
    let (layout, frames) = sound_in(bytes)?;
    let frames = frames_of(alloc, layout.format, frames)?;
    Ok(Wav {
        format: layout.format,
        channels: layout.channels,
        rate: layout.rate,
        frames,
    })
}

/// A law of the definitions: any bytes are a WAV file of one recording, or have one fault, and not both.
pub fn wav_or_fault()
    ensures one { (bytes : List ℕ) → ((r : Recording) × IsWav bytes r) ⊎ ((e : WavError) × WavFault bytes e) }
    ensures not_both { (bytes : List ℕ) (r : Recording) (e : WavError) → IsWav bytes r → WavFault bytes e → ⊥ }
    ensures one_recording { (bytes : List ℕ) (q r : Recording) → IsWav bytes q → IsWav bytes r → q ≡ r }
    ensures one_fault { (bytes : List ℕ) (d e : WavError) → WavFault bytes d → WavFault bytes e → d ≡ e }
{}
