// The file of what a card took.
ghost use Rattle.std.specs.Prelude.{◌≡◌, ◌≤◌, ◌&&◌, true, None, Some, IfOk, MatchResult};
ghost use Rattle.pcm_base.specs.model.Words.{is_playback};
ghost use Rattle.pcm_base.specs.model.World.{World as ModelWorld, stream_in};
ghost use Rattle.pcm_top.specs.Run.{is_wav_format as has_wav_format_of, save_refusal, saved_file};
ghost use Rattle.pcm_top.specs.CodeSession.{HasWavNumbers};
ghost use Rattle.pcm_world.specs.Shown.{IsWorld};

use pcm_base::{Card, Config, Dir, Errno, Format, State, SubId};
use pcm_world::World;
use std::alloc::{AllocError, Global};
use wav_file::{Wav, WavError, write_wav};

fn is_wav_format(format: Format) -> bool
    ensures { result ≡ has_wav_format_of format }
{
    matches!(
        format,
        Format::U8 | Format::S16Le | Format::S24Le | Format::S24Le3 | Format::S32Le
    )
}

// Whether frames of this configuration, that a card of this direction takes, can stand in a WAV file.
fn is_savable(dir: Dir, config: &Config) -> bool
    ensures { result ≡ (is_playback dir && has_wav_format_of config.now.format) }
{
    matches!(dir, Dir::Playback) && is_wav_format(config.format)
}

// Whether a WAV file can have the channels and the rate. Those of each card model are such.
fn has_wav_numbers(config: &Config) -> bool
    ensures { result ≡ true → HasWavNumbers config.now }
{
    1 <= config.channels && config.channels <= 8 && 1 <= config.rate && config.rate < 1 << 32
}

/// The WAV file of what the card of a substream took, or why there is none: ENXIO where it is closed or not declared, EINVAL
/// on capture and where it has no configuration, or one whose format no WAV file has. This project's own.
pub fn file_to_save(
    alloc: Global,
    world: &World,
    sub: SubId,
) -> Result<Result<Vec<u8>, Errno>, AllocError>
    requires number { sub.0 ≤ 15 }
    requires stands { (w : ModelWorld) × IsWorld world.now w }
    ensures { (w : ModelWorld) → IsWorld world.now w
        → IfOk result (λ r. MatchResult r (λ file. (save_refusal sub w ≡ None) × (file.items ≡ saved_file (stream_in sub w))) (λ e. save_refusal sub w ≡ Some e)) }
{
    let Some(stream) = world.substream(sub) else {
        return Ok(Err(Errno::Enxio));
    };
    if stream.state() == State::Closed {
        return Ok(Err(Errno::Enxio));
    }
    match stream.config() {
        Some(config) if is_savable(stream.dir(), config) => {
            if !has_wav_numbers(config) {
                return Err(AllocError);
            }
            let wav = Wav {
                format: config.format,
                channels: config.channels,
                rate: config.rate,
                frames: stream.card().taken().to_vec(alloc)?,
            };
            match write_wav(alloc, &wav) {
                Ok(file) => Ok(Ok(file)),
                Err(WavError::Memory) => Err(AllocError),
                Err(_) => unreachable!(),
            }
        }
        _ => Ok(Err(Errno::Einval)),
    }
}
