// What a "fmt " chunk says.
ghost use Rattle.std.specs.Prelude.{◌≡◌, ◌+◌, ◌^◌, ◌<◌, ◌≤◌, length, IfOk};
ghost use Rattle.wav_file.specs.Chunks.{place_of};
ghost use Rattle.wav_file.specs.Faults.{fields_at, format_at, has_other_subtype as has_other_subtype_than_pcm, has_size as has_size_of, is_known_tag as is_known, tag_at, valid_at};
ghost use Rattle.wav_file.specs.Recordings.{format_of as format_of_samples, frame_bytes};

use crate::chunk::{Chunk, body_size};
use crate::wav::WavError;
use byteorder::{ByteOrder, LittleEndian};
use pcm_base::{Format, width_of};

/// The tag of plain PCM (`WAVE_FORMAT_PCM`).
pub(crate) const PCM: u16 = 1;

/// The tag of a body that names its samples by a subtype (`WAVE_FORMAT_EXTENSIBLE`).
pub(crate) const EXTENSIBLE: u16 = 0xfffe;

/// The subtype of PCM (`KSDATAFORMAT_SUBTYPE_PCM`).
pub(crate) const PCM_SUBTYPE: [u8; 16] = [
    0x01, 0, 0, 0, 0, 0, 0x10, 0, 0x80, 0, 0, 0xaa, 0, 0x38, 0x9b, 0x71,
];

/// The format, channels and rate (Hz) of a file's frames.
#[derive(Clone, Copy)]
pub(crate) struct Layout {
    pub(crate) format: Format,
    pub(crate) channels: u64,
    pub(crate) rate: u64,
}

impl Layout {
    /// The bytes of one frame.
    pub(crate) fn frame_bytes(&self) -> usize
        requires { self.now.channels ≤ 8 }
        ensures value { result ≡ frame_bytes self.now.format self.now.channels }
        ensures some { 1 ≤ self.now.channels → 1 ≤ result }
    {
        self.channels as usize * width_of(self.format) as usize
    }
}

/// The format of PCM samples with so many bits, so many of them valid.
fn format_of(bits: u16, valid: u16) -> Option<Format>
    ensures { result ≡ format_of_samples bits valid }
{
    match bits {
        8 => Some(Format::U8),
        16 => Some(Format::S16Le),
        24 => Some(Format::S24Le3),
        32 if valid == 24 => Some(Format::S24Le),
        32 => Some(Format::S32Le),
        _ => None,
    }
}

fn tag_of(bytes: &[u8]) -> u16
    requires { 10 ≤ length bytes.now }
    ensures { result ≡ tag_at bytes.now }
{
    LittleEndian::read_u16(&bytes[8..])
}

/// How many bits of a sample are valid: an extensible chunk tells it, and in a plain one all are.
fn valid_bits(bytes: &[u8]) -> u16
    requires plain { 24 ≤ length bytes.now }
    requires extensible { tag_at bytes.now ≡ 65534 → 28 ≤ length bytes.now }
    ensures { result ≡ valid_at bytes.now }
{
    if tag_of(bytes) == EXTENSIBLE {
        LittleEndian::read_u16(&bytes[26..])
    } else {
        LittleEndian::read_u16(&bytes[22..])
    }
}

/// The fields of a "fmt " chunk with a body of at least 16 bytes. The bytes per second are not looked at.
#[tactic(auto, unfolding(crate::specs::Faults::fields_at))]
fn fields_of(chunk: Chunk) -> Result<Layout, WavError>
    requires plain { 24 ≤ length chunk.bytes.now }
    requires extensible { tag_at chunk.bytes.now ≡ 65534 → 28 ≤ length chunk.bytes.now }
    requires room { chunk.at + length chunk.bytes.now < 2 ^ 64 }
    ensures value { result ≡ fields_at (place_of chunk.entry) }
    ensures channels { IfOk result (λ l. (1 ≤ l.channels) × (l.channels ≤ 8)) }
    ensures rate { IfOk result (λ l. l.rate < 2 ^ 32) }
{
    let Chunk { at, bytes } = chunk;
    let channels = u64::from(LittleEndian::read_u16(&bytes[10..]));
    if channels < 1 || 8 < channels {
        return Err(WavError::BadFmt(at + 10));
    }
    let rate = u64::from(LittleEndian::read_u32(&bytes[12..]));
    if rate == 0 {
        return Err(WavError::BadFmt(at + 12));
    }
    let bits = LittleEndian::read_u16(&bytes[22..]);
    let valid = valid_bits(bytes);
    let Some(format) = format_of(bits, valid) else {
        return Err(WavError::Width(bits));
    };
    if bits < valid {
        return Err(WavError::Width(valid));
    }
    let align = u64::from(LittleEndian::read_u16(&bytes[20..]));
    if align != channels * u64::from(bits) / 8 {
        return Err(WavError::BadFmt(at + 20));
    }
    Ok(Layout {
        format,
        channels,
        rate,
    })
}

fn is_known_tag(tag: u16) -> bool
    ensures { result ≡ is_known tag }
{
    matches!(tag, PCM | EXTENSIBLE)
}

/// Whether a body with this tag may have this size.
fn has_size(tag: u16, size: usize) -> bool
    ensures { result ≡ has_size_of tag size }
{
    match tag {
        EXTENSIBLE => size == 40,
        _ => size == 16 || size == 18,
    }
}

/// Whether an extensible chunk has another subtype than that of PCM.
fn has_other_subtype(bytes: &[u8]) -> bool
    requires plain { 10 ≤ length bytes.now }
    requires extensible { tag_at bytes.now ≡ 65534 → 48 ≤ length bytes.now }
    ensures { result ≡ has_other_subtype_than_pcm bytes.now }
{
    tag_of(bytes) == EXTENSIBLE && !bytes[32..].starts_with(&PCM_SUBTYPE)
}

/// Reads a "fmt " chunk.
#[tactic(auto, unfolding(crate::specs::Faults::format_at))]
pub(crate) fn layout_of(chunk: Chunk) -> Result<Layout, WavError>
    requires head { 8 ≤ length chunk.bytes.now }
    requires room { chunk.at + length chunk.bytes.now < 2 ^ 64 }
    ensures value { result ≡ format_at (place_of chunk.entry) }
    ensures channels { IfOk result (λ l. (1 ≤ l.channels) × (l.channels ≤ 8)) }
    ensures rate { IfOk result (λ l. l.rate < 2 ^ 32) }
{
    let Chunk { at, bytes } = chunk;
    let size = body_size(bytes);
    if size < 16 {
        return Err(WavError::BadFmt(at + 4));
    }
    if bytes.len() < 8 + size {
        return Err(WavError::BadFmt(at));
    }
    let tag = tag_of(bytes);
    if !is_known_tag(tag) {
        return Err(WavError::NotPcm(tag));
    }
    if !has_size(tag, size) {
        return Err(WavError::BadFmt(at + 4));
    }
    if has_other_subtype(bytes) {
        return Err(WavError::NotPcm(LittleEndian::read_u16(&bytes[32..])));
    }
    fields_of(chunk)
}
