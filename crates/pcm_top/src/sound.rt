// Sounds of files, played into and recorded from the devices of the deck.
ghost use Rattle.std.specs.Prelude.{◌≡◌, ◌≢◌, ◌≤◌, ◌++◌, ◌∷◌, [], IfOk, codes, decimal, length};
ghost use Rattle.pcm_base.specs.Causes.{Rose};
ghost use Rattle.pcm_base.specs.declared.state.Dir.TheVariants.{Capture, Playback};
ghost use Rattle.pcm_group.specs.Inside.{members_in};
ghost use Rattle.play_record.specs.Devices.{HasMoved, IsDevice, taken_by};
ghost use Rattle.play_record.specs.Sounds.{frame_count as frame_count_of, most_bytes};
ghost use Rattle.pcm_top.specs.CodeSound.{StoreEnds, status_unloaded, status_unmade};
ghost use Rattle.pcm_top.specs.Sound.{IsTaken, JobEnds, capturing, playing};
ghost use Rattle.wav_file.specs.Grammar.{CanWrite};
ghost use Rattle.wav_file.specs.Recordings.{recording};

use crate::end::Unanswered;
use crate::feed::load;
use crate::top::status_of;
use card_emul::AnyCard;
use pcm_base::{Name, width_of};
use pcm_group::Group;
use pcm_io::{Shelf, ShelfError, Sink, write_all};
use pcm_text::{Status, Which, push_number, push_text};
use play_record::{PlayError, play, record_frames};
use std::alloc::{AllocError, Global};
use wav_file::{Wav, write_wav};

// The status where no sound was made.
fn unmade(error: PlayError, which: Which) -> Status
    ensures { result ≡ status_unmade which error }
{
    match error {
        PlayError::Refused(errno) => Status::Refused(errno),
        PlayError::TooMuch(bytes) => Status::Limit(which, bytes),
        PlayError::Memory => Status::Memory,
    }
}

// The status where no sound was loaded.
fn unloaded(why: Unanswered) -> Status
    ensures { result ≡ status_unloaded why }
{
    match why {
        Unanswered::Ended(ended) => status_of(ended),
        Unanswered::Memory => Status::Memory,
    }
}

// The count of frames of a sound.
fn frame_count(wav: &Wav) -> u64
    requires { CanWrite (recording wav.now) }
    ensures { result ≡ frame_count_of (recording wav.now) }
{
    wav.frames.len() as u64 / (wav.channels * u64::from(width_of(wav.format)))
}

// The line of a sound that was played.
fn played_line(alloc: Global, frames: u64, stored: u64) -> Result<Vec<u8>, AllocError>
    ensures { IfOk result (λ line. line.items ≡ codes "played " ++ decimal frames ++ codes " stored " ++ decimal stored ++ 10 ∷ []) }
{
    let mut line = Vec::new(alloc);
    push_text(&mut line, b"played ")?;
    push_number(&mut line, frames)?;
    push_text(&mut line, b" stored ")?;
    push_number(&mut line, stored)?;
    push_text(&mut line, b"\n")?;
    Ok(line)
}

// The line of a sound that was recorded.
fn captured_line(alloc: Global, frames: u64) -> Result<Vec<u8>, AllocError>
    ensures { IfOk result (λ line. line.items ≡ codes "captured " ++ decimal frames ++ 10 ∷ []) }
{
    let mut line = Vec::new(alloc);
    push_text(&mut line, b"captured ")?;
    push_number(&mut line, frames)?;
    push_text(&mut line, b"\n")?;
    Ok(line)
}

// Stores the sound, and then writes its line.
fn store_and_tell<K: Sink, F: Shelf>(
    alloc: Global,
    to: &Name,
    wav: &Wav,
    line: &[u8],
    out: &mut K,
    shelf: &mut F,
) -> Status
    requires writable { CanWrite (recording wav.now) }
    requires few { length wav.now.frames.items ≤ most_bytes }
    ensures ends { StoreEnds (recording wav.now) to.now line.now (F.files shelf.old) (F.files shelf.new) (K.written out.old) (K.written out.new) result }
    ensures write { result ≡ Status.WriteFault → Rose (K.faults out.old) (K.faults out.new) }
    ensures calm_sink { result ≢ Status.WriteFault → K.faults out.new ≡ K.faults out.old }
    ensures store { result ≡ Status.ShelfFault → Rose (F.faults shelf.old) (F.faults shelf.new) }
    ensures calm_shelf { result ≢ Status.ShelfFault → F.faults shelf.new ≡ F.faults shelf.old }
{
    let Ok(file) = write_wav(alloc, wav) else {
        return Status::Memory;
    };
    match shelf.store(to, &file) {
        Ok(()) => match write_all(out, line) {
            Ok(()) => Status::Ok,
            Err(_) => Status::WriteFault,
        },
        Err(ShelfError::Failed) => Status::ShelfFault,
        Err(ShelfError::Memory) => Status::Memory,
    }
}

/// Plays the one file on the device and stores what its card took as the other. This project's own.
pub fn play_file<K: Sink, F: Shelf>(
    alloc: Global,
    from: &Name,
    to: &Name,
    period: u64,
    periods: u64,
    out: &mut K,
    shelf: &mut F,
    player: &mut Group<AnyCard>,
) -> Status
    requires player { IsDevice Playback (members_in player.old) }
    ensures ends { JobEnds (playing period periods) from.now to.now (F.files shelf.old) (F.files shelf.new) (K.written out.old) (K.written out.new) result }
    ensures taken { result ≡ Status.Ok → IsTaken (playing period periods) from.now to.now (F.files shelf.old) (F.files shelf.new) (taken_by (members_in player.new)) }
    ensures write { result ≡ Status.WriteFault → Rose (K.faults out.old) (K.faults out.new) }
    ensures calm_sink { result ≢ Status.WriteFault → K.faults out.new ≡ K.faults out.old }
    ensures store { result ≡ Status.ShelfFault → Rose (F.faults shelf.old) (F.faults shelf.new) }
    ensures calm_shelf { result ≢ Status.ShelfFault → F.faults shelf.new ≡ F.faults shelf.old }
{
    let wav = match load(alloc, from, shelf) {
        Ok(wav) => wav,
        Err(why) => return unloaded(why),
    };
    let played = match play(alloc, player, &wav, period, periods) {
        Ok(played) => played,
        Err(error) => return unmade(error, Which::TakenBytes),
    };
    match played_line(alloc, frame_count(&wav), frame_count(&played)) {
        Ok(line) => store_and_tell(alloc, to, &played, &line, out, shelf),
        Err(_) => Status::Memory,
    }
}

/// Records so many frames on the device, whose card is given those of the one file, and stores them as the other. This
/// project's own.
pub fn capture_file<K: Sink, F: Shelf>(
    alloc: Global,
    from: &Name,
    to: &Name,
    frames: u64,
    out: &mut K,
    shelf: &mut F,
    recorder: &mut Group<AnyCard>,
) -> Status
    requires recorder { IsDevice Capture (members_in recorder.old) }
    ensures ends { JobEnds (capturing frames) from.now to.now (F.files shelf.old) (F.files shelf.new) (K.written out.old) (K.written out.new) result }
    ensures moved { result ≡ Status.Ok → HasMoved frames (members_in recorder.new) }
    ensures write { result ≡ Status.WriteFault → Rose (K.faults out.old) (K.faults out.new) }
    ensures calm_sink { result ≢ Status.WriteFault → K.faults out.new ≡ K.faults out.old }
    ensures store { result ≡ Status.ShelfFault → Rose (F.faults shelf.old) (F.faults shelf.new) }
    ensures calm_shelf { result ≢ Status.ShelfFault → F.faults shelf.new ≡ F.faults shelf.old }
{
    let wav = match load(alloc, from, shelf) {
        Ok(wav) => wav,
        Err(why) => return unloaded(why),
    };
    let recorded = match record_frames(alloc, recorder, &wav, frames) {
        Ok(recorded) => recorded,
        Err(error) => return unmade(error, Which::CaptureBytes),
    };
    match captured_line(alloc, frames) {
        Ok(line) => store_and_tell(alloc, to, &recorded, &line, out, shelf),
        Err(_) => Status::Memory,
    }
}
