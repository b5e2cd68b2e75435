// The sound that is played or recorded: its configuration, and the count of its bytes.
ghost use Rattle.std.specs.Prelude.{◌≡◌, ◌≤◌, ◌<◌, ◌%◌, ◌+◌, ◌^◌, length, true, false, OnOk, IfOk, IfErr};
ghost use Rattle.pcm_base.specs.declared.format.Access.TheVariants.{RwInterleaved};
ghost use Rattle.pcm_base.specs.declared.state.Errno.TheVariants as errno;
ghost use Rattle.pcm_base.specs.model.Allowed.{accepts, shape_of};
ghost use Rattle.card_emul.specs.Limits.{duplex};
ghost use Rattle.wav_file.specs.Grammar.{CanWrite};
ghost use Rattle.wav_file.specs.Recordings.{frame_bytes, recording};
ghost use Rattle.play_record.specs.declared.error.PlayError.TheVariants as play_error;
ghost use Rattle.play_record.specs.Stages.{IsSized, long_max};
ghost use Rattle.play_record.specs.Sounds.{bytes_of_frames, config_for as the_config, played_bytes as bytes_played, shown_count};

use crate::error::PlayError;
use card_emul::model_of;
use hw_params::{allowed_is_the_test, check};
use pcm_base::{Access, Config, Model, Shape, width_of};
use pcm_laws::pointer::boundaries;
use wav_file::Wav;

/// The LONG_MAX of a device.
pub(crate) const LONG_MAX: u64 = 2_147_483_647;

/// The most bytes of frames that are played or recorded: 64 MiB.
pub(crate) const MOST_BYTES: u64 = 67_108_864;

/// The configuration for a sound.
pub(crate) fn config_for(wav: &Wav, period: u64, periods: u64) -> Config
    ensures { result ≡ the_config (recording wav.now) period periods }
{
    Config {
        access: Access::RwInterleaved,
        format: wav.format,
        channels: wav.channels,
        rate: wav.rate,
        period,
        periods,
    }
}

/// The sizes of a configuration; `Refused` where the device does not have it.
pub(crate) fn accepted(config: &Config) -> Result<Shape, PlayError>
    ensures ok { OnOk result (accepts duplex long_max config.now ≡ true) }
    ensures shape { IfOk result (λ shape. shape ≡ shape_of config.now long_max) }
    ensures sized { OnOk result (config.now.access ≡ RwInterleaved → IsSized config.now) }
    ensures refused { IfErr result (λ e. (accepts duplex long_max config.now ≡ false) × (e ≡ play_error.Refused errno.Einval)) }
{
    boundaries();
    allowed_is_the_test();
    match check(&model_of(Model::Duplex), config, LONG_MAX) {
        Ok(shape) => Ok(shape),
        Err(e) => Err(PlayError::Refused(e)),
    }
}

/// The bytes of a frame.
pub(crate) fn frame_bytes_of(wav: &Wav) -> u64
    requires { CanWrite (recording wav.now) }
    ensures value { result ≡ frame_bytes wav.now.format wav.now.channels }
    ensures some { 1 ≤ result }
    ensures few { result ≤ 32 }
{
    wav.channels * u64::from(width_of(wav.format))
}

/// The bytes of the frames that are played, in whole periods.
pub(crate) fn played_bytes(wav: &Wav, period: u64) -> u64
    requires sound { CanWrite (recording wav.now) }
    requires some { 1 ≤ period }
    requires short { period ≤ 65536 }
    ensures { result ≡ bytes_played period (recording wav.now) }
{
    let frame = frame_bytes_of(wav);
    let frames = wav.frames.len() as u64 / frame;
    (frames + (period - 1)) / period * period * frame
}

/// The bytes of so many frames, 2^64 - 1 where there are more.
pub(crate) fn recorded_bytes(wav: &Wav, frames: u64) -> u64
    requires { CanWrite (recording wav.now) }
    ensures { result ≡ shown_count (bytes_of_frames frames (recording wav.now)) }
{
    frames.saturating_mul(frame_bytes_of(wav))
}
