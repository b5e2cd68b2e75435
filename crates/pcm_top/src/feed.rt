// The frames of a file for a capture card.
ghost use Rattle.std.specs.Prelude.{◌≡◌, ◌≢◌, ◌≤◌, ◌||◌, not, None, Some, IfOk, OnOk, length};
ghost use Rattle.pcm_base.specs.Causes.{Rose};
ghost use Rattle.pcm_base.specs.declared.reply.Reply.TheVariants as reply_of;
ghost use Rattle.pcm_base.specs.model.World.{World as ModelWorld, state_in, stays, stream_in};
ghost use Rattle.pcm_base.specs.model.Stream.{is_bare};
ghost use Rattle.pcm_base.specs.model.Words.{is_playback};
ghost use Rattle.pcm_io.specs.Shelf.{Stay};
ghost use Rattle.pcm_line.specs.declared.line.Line.TheVariants as line_of;
ghost use Rattle.pcm_top.specs.declared.command.Command.TheVariants.{Run};
ghost use Rattle.pcm_top.specs.declared.end.End.{End as EndOf};
ghost use Rattle.pcm_top.specs.declared.end.End.TheVariants.{ShelfFault};
ghost use Rattle.pcm_top.specs.declared.end.Unanswered.TheVariants.{Ended, Memory};
ghost use Rattle.pcm_top.specs.CodeSession.{IsCut, IsNext, IsSession, IsStopped, Keeps};
ghost use Rattle.pcm_top.specs.Run.{IsLoaded, feed_answer, feed_refusal as feed_refusal_of, fits_config, tells, wav_limit};
ghost use Rattle.pcm_top.specs.Script.{IsFeedEnd, IsFileEnd};
ghost use Rattle.pcm_top.specs.Session.{Session as Come};
ghost use Rattle.pcm_world.specs.Shown.{IsWorld, shown};
ghost use Rattle.wav_file.specs.Grammar.{CanWrite, IsWav};
ghost use Rattle.wav_file.specs.Recordings.{recording};

use crate::end::{End, Unanswered};
use crate::give::give;
use crate::session::Session;
use crate::told::{is_closed, told_of};
use pcm_base::{Config, Dir, Errno, Name, Reply, SubId, Told};
use pcm_io::{LOAD_LIMIT, Shelf, ShelfError};
use pcm_text::push_told;
use pcm_world::World;
use std::alloc::{AllocError, Global};
use wav_file::{Wav, WavError, read_wav};

// Whether the substream captures and has a configuration.
fn takes_frames(world: &World, sub: SubId) -> bool
    requires { sub.0 ≤ 15 }
    ensures { (w : ModelWorld) → IsWorld world.now w → result ≡ not (is_playback (stream_in sub w).dir || is_bare (stream_in sub w)) }
{
    match world.substream(sub) {
        Some(stream) => !matches!(stream.dir(), Dir::Playback) && stream.config().is_some(),
        None => false,
    }
}

// Why nothing is fed to a card, before the file is looked at: ENXIO where the substream is closed or not declared, EINVAL on
// playback and where it has no configuration.
fn feed_refusal(world: &World, sub: SubId) -> Option<Errno>
    requires { sub.0 ≤ 15 }
    ensures { (w : ModelWorld) → IsWorld world.now w → result ≡ feed_refusal_of sub w }
{
    if is_closed(world, sub) {
        return Some(Errno::Enxio);
    }
    if !takes_frames(world, sub) {
        return Some(Errno::Einval);
    }
    None
}

fn copy_of(name: &Name) -> Name
    ensures { result ≡ name.now }
{
    match Name::of(name.as_slice()) {
        Some(name) => name,
        None => unreachable!(),
    }
}

// The recording of a file's bytes, or of its front where it is too long.
fn wav_of(alloc: Global, name: &Name, bytes: &[u8]) -> Result<Wav, Unanswered>
    ensures few { OnOk result (length bytes.now ≤ wav_limit) }
    ensures found { IfOk result (λ wav. IsWav bytes.now (recording wav)) }
    ensures writable { IfOk result (λ wav. CanWrite (recording wav)) }
    ensures ended { (e : EndOf) → result ≡ Err (Ended e) → IsFileEnd name.now (Some bytes.now) e }
{
    if bytes.len() >= LOAD_LIMIT {
        return Err(Unanswered::Ended(End::WavBytes));
    }
    match read_wav(alloc, bytes) {
        Ok(wav) => Ok(wav),
        Err(WavError::Memory) => Err(Unanswered::Memory),
        Err(fault) => Err(Unanswered::Ended(End::BadWav(copy_of(name), fault))),
    }
}

/// The recording of the shelf's file. This project's own.
pub fn load<F: Shelf>(alloc: Global, name: &Name, shelf: &mut F) -> Result<Wav, Unanswered>
    ensures found { IfOk result (λ wav. IsLoaded (F.files shelf.old) name.now (recording wav)) }
    ensures writable { IfOk result (λ wav. CanWrite (recording wav)) }
    ensures ended { (e : EndOf) → result ≡ Err (Ended e) → IsFeedEnd (F.files shelf.old) name.now e }
    ensures stay { Stay (F.files shelf.old) (F.files shelf.new) }
    ensures rose { result ≡ Err (Ended ShelfFault) → Rose (F.faults shelf.old) (F.faults shelf.new) }
    ensures calm { result ≢ Err (Ended ShelfFault) → F.faults shelf.new ≡ F.faults shelf.old }
{
    match shelf.load(name) {
        Ok(Some(bytes)) => wav_of(alloc, name, &bytes),
        Ok(None) => Err(Unanswered::Ended(End::Missing(copy_of(name)))),
        Err(ShelfError::Failed) => Err(Unanswered::Ended(End::ShelfFault)),
        Err(ShelfError::Memory) => Err(Unanswered::Memory),
    }
}

// Whether the recording has the format, the channels and the rate of the configuration.
fn has_config(wav: &Wav, config: &Config) -> bool
    ensures { result ≡ fits_config (recording wav.now) (Some config.now) }
{
    wav.format.number() == config.format.number()
        && wav.channels == config.channels
        && wav.rate == config.rate
}

fn fits(world: &World, sub: SubId, wav: &Wav) -> bool
    requires { sub.0 ≤ 15 }
    ensures { (w : ModelWorld) → IsWorld world.now w → result ≡ fits_config (recording wav.now) (stream_in sub w).setup.config }
{
    match world.substream(sub) {
        Some(stream) => match stream.config() {
            Some(config) => has_config(wav, config),
            None => false,
        },
        None => false,
    }
}

// The recording's frames are given to the card, where they fit.
fn feed(world: &mut World, sub: SubId, wav: &Wav) -> Result<Told, AllocError>
    requires { sub.0 ≤ 15 }
    ensures answered { IfOk result (λ told. told.reply ≢ reply_of.Memory) }
    ensures told { (w : ModelWorld) → IsWorld world.old w → IfOk result (λ told. told ≡ shown (feed_answer sub (recording wav.now) w)) }
    ensures world { (w : ModelWorld) → IsWorld world.old w → OnOk result (IsWorld world.new (feed_answer sub (recording wav.now) w).world) }
{
    if fits(world, sub, wav) {
        give(world, sub, &wav.frames)
    } else {
        Ok(told_of(world, sub, Reply::Err(Errno::Einval)))
    }
}

// The line of a feed whose file is loaded.
fn loaded_line<F: Shelf>(
    alloc: Global,
    number: u64,
    sub: SubId,
    name: &Name,
    session: &mut Session,
    shelf: &mut F,
) -> Result<(), Unanswered>
    requires { sub.0 ≤ 15 }
    ensures ok { (s : Come) → feed_refusal_of sub s.world ≡ None → IsSession session.old (F.files shelf.old) s → OnOk result (IsNext Run number (line_of.Feed sub name.now) s session.new (F.files shelf.new)) }
    ensures ended { (s : Come) (e : EndOf) → feed_refusal_of sub s.world ≡ None → IsSession session.old (F.files shelf.old) s → result ≡ Err (Ended e)
        → IsStopped Run (line_of.Feed sub name.now) s session.new.text.items (F.files shelf.new) e }
    ensures stay { Stay (F.files shelf.old) (F.files shelf.new) }
    ensures rose { result ≡ Err (Ended ShelfFault) → Rose (F.faults shelf.old) (F.faults shelf.new) }
    ensures calm { result ≢ Err (Ended ShelfFault) → F.faults shelf.new ≡ F.faults shelf.old }
{
    let wav = load(alloc, name, shelf)?;
    let told = feed(&mut session.world, sub, &wav)?;
    push_told(&mut session.text, number, &told, None)?;
    Ok(())
}

// The line of a feed that is refused.
fn refused_line(
    number: u64,
    sub: SubId,
    refusal: Errno,
    session: &mut Session,
) -> Result<(), AllocError>
    requires { sub.0 ≤ 15 }
    ensures { (s : Come) → Keeps session.old s → OnOk result (Keeps session.new (tells number (stays (reply_of.Err refusal) (Some (state_in sub s.world)) s.world) None s)) }
{
    let told = told_of(&session.world, sub, Reply::Err(refusal));
    push_told(&mut session.text, number, &told, None)
}

/// The line of a feed: a refusal, or the frames of the shelf's file are given to the card. The file is looked at only where
/// the card is a capture card with a configuration. This project's own.
pub fn feed_line<F: Shelf>(
    alloc: Global,
    number: u64,
    sub: SubId,
    name: &Name,
    session: &mut Session,
    shelf: &mut F,
) -> Result<(), Unanswered>
    requires { sub.0 ≤ 15 }
    ensures ok { (s : Come) → IsSession session.old (F.files shelf.old) s → OnOk result (IsNext Run number (line_of.Feed sub name.now) s session.new (F.files shelf.new)) }
    ensures ended { (s : Come) (e : EndOf) → IsSession session.old (F.files shelf.old) s → result ≡ Err (Ended e) → IsStopped Run (line_of.Feed sub name.now) s session.new.text.items (F.files shelf.new) e }
    ensures memory { (s : Come) → IsSession session.old (F.files shelf.old) s → result ≡ Err Memory → IsCut Run number (line_of.Feed sub name.now) s (F.files shelf.new) }
    ensures rose { result ≡ Err (Ended ShelfFault) → Rose (F.faults shelf.old) (F.faults shelf.new) }
    ensures calm { result ≢ Err (Ended ShelfFault) → F.faults shelf.new ≡ F.faults shelf.old }
{
    match feed_refusal(&session.world, sub) {
        Some(refusal) => {
            refused_line(number, sub, refusal, session)?;
            Ok(())
        }
        None => loaded_line(alloc, number, sub, name, session, shelf),
    }
}
