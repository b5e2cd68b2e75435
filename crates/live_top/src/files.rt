// Files of the shelf.
ghost use Rattle.std.specs.Prelude.{◌≡◌, ◌≢◌, ◌≤◌, ◌&&◌, true, None, Some, Err, IfOk, IfErr, OnOk, length};
ghost use Rattle.std.specs.Option.{option_map};
ghost use Rattle.pcm_base.specs.Causes.{Rose};
ghost use Rattle.pcm_base.specs.model.Stream.{Stream};
ghost use Rattle.pcm_io.specs.Shelf.{Stay};
ghost use Rattle.pcm_stream.specs.StandsFor.{StandsFor};
ghost use Rattle.pcm_text.specs.declared.status.Status.TheVariants.{ShelfFault};
ghost use Rattle.wav_file.specs.Grammar.{IsWav};
ghost use Rattle.wav_file.specs.Recordings.{recording};
ghost use Rattle.live_top.specs.Files.{HasWavNumbers, IsBytesEnd, IsLoadEnd, IsLoaded, file_of as file_of_stream, is_of_config, is_wav_format as is_wav_format_of, takes as takes_of, wav_limit};

use pcm_base::{Card, Config, Dir, Format, Name, State};
use pcm_io::{LOAD_LIMIT, Shelf, ShelfError};
use pcm_stream::Substream;
use pcm_text::{Status, Which};
use std::alloc::{AllocError, Global};
use wav_file::{Wav, WavError, read_wav, write_wav};

fn copy_of(name: &Name) -> Name
    ensures { result ≡ name.now }
{
    match Name::of(name.as_slice()) {
        Some(name) => name,
        None => unreachable!(),
    }
}

// The recording of a file's bytes, or of its front where it is too long.
fn wav_of(alloc: Global, name: &Name, bytes: &[u8]) -> Result<Wav, Status>
    ensures few { OnOk result (length bytes.now ≤ wav_limit) }
    ensures found { IfOk result (λ wav. IsWav bytes.now (recording wav)) }
    ensures ended { IfErr result (λ s. IsBytesEnd name.now bytes.now s) }
    ensures calm { result ≢ Err ShelfFault }
{
    if bytes.len() >= LOAD_LIMIT {
        return Err(Status::Limit(Which::WavBytes, LOAD_LIMIT as u64));
    }
    match read_wav(alloc, bytes) {
        Ok(wav) => Ok(wav),
        Err(WavError::Memory) => Err(Status::Memory),
        Err(fault) => Err(Status::BadWav(copy_of(name), fault)),
    }
}

/// The recording of the shelf's file.
pub(crate) fn load<F: Shelf>(alloc: Global, name: &Name, shelf: &mut F) -> Result<Wav, Status>
    ensures found { IfOk result (λ wav. IsLoaded (F.files shelf.old) name.now (recording wav)) }
    ensures ended { IfErr result (λ s. IsLoadEnd (F.files shelf.old) name.now s) }
    ensures stay { Stay (F.files shelf.old) (F.files shelf.new) }
    ensures rose { result ≡ Err ShelfFault → Rose (F.faults shelf.old) (F.faults shelf.new) }
    ensures calm { result ≢ Err ShelfFault → F.faults shelf.new ≡ F.faults shelf.old }
{
    match shelf.load(name) {
        Ok(Some(bytes)) => wav_of(alloc, name, &bytes),
        Ok(None) => Err(Status::Missing(copy_of(name))),
        Err(ShelfError::Failed) => Err(Status::ShelfFault),
        Err(ShelfError::Memory) => Err(Status::Memory),
    }
}

/// Whether the recording has the format, the channels and the rate of the configuration.
pub(crate) fn has_config(wav: &Wav, config: &Config) -> bool
    ensures { result ≡ is_of_config (recording wav.now) config.now }
{
    wav.format.number() == config.format.number()
        && wav.channels == config.channels
        && wav.rate == config.rate
}

fn is_wav_format(format: Format) -> bool
    ensures { result ≡ is_wav_format_of format }
{
    matches!(
        format,
        Format::U8 | Format::S16Le | Format::S24Le | Format::S24Le3 | Format::S32Le
    )
}

// Whether its card takes frames.
fn takes<C: Card>(stream: &Substream<C>) -> bool
    ensures { (s : Stream) → StandsFor stream.now s → result ≡ takes_of s }
{
    match (stream.state(), stream.dir()) {
        (State::Closed, _) | (_, Dir::Capture) => false,
        _ => true,
    }
}

// Whether a WAV file can have the channels and the rate. Those of each card model are such.
fn has_wav_numbers(config: &Config) -> bool
    ensures { result ≡ true → HasWavNumbers config.now }
{
    1 <= config.channels && config.channels <= 8 && 1 <= config.rate && config.rate < 1 << 32
}

/// The WAV file of what the card of a substream took. There is none where the substream is closed, on capture, and where it has
/// no configuration, or one whose format no WAV file has.
pub(crate) fn file_to_save<C: Card>(
    alloc: Global,
    stream: &Substream<C>,
) -> Result<Option<Vec<u8>>, AllocError>
    requires { (s : Stream) × StandsFor stream.now s }
    ensures { (s : Stream) → StandsFor stream.now s → IfOk result (λ file. option_map (λ bytes. bytes.items) file ≡ file_of_stream s) }
{
    if !takes(stream) {
        return Ok(None);
    }
    match stream.config() {
        Some(config) if is_wav_format(config.format) => {
            if !has_wav_numbers(config) {
                return Err(AllocError);
            }
            let wav = Wav {
                format: config.format,
                channels: config.channels,
                rate: config.rate,
                frames: stream.card().taken().to_vec(alloc)?,
            };
            match write_wav(alloc, &wav) {
                Ok(file) => Ok(Some(file)),
                Err(WavError::Memory) => Err(AllocError),
                Err(_) => unreachable!(),
            }
        }
        _ => Ok(None),
    }
}
