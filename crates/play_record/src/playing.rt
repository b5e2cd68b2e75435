// Playing a sound.
ghost use Rattle.std.specs.Prelude.{◌≡◌, ◌≢◌, ◌↔◌, ◌<◌, ◌≤◌, ◌∷◌, ◌++◌, ◌+◌, ◌-◌, ◌*◌, [], ℕ, List, drop, if◌then◌else◌, length, nat_lt, replicate, take, true, false, IfOk, IfErr, OnOk};
ghost use Rattle.pcm_base.specs.declared.state.Dir.TheVariants.{Playback};
ghost use Rattle.pcm_base.specs.declared.state.Errno.{Errno as ErrnoOf};
ghost use Rattle.pcm_base.specs.declared.config.Config.{Config as Configuration};
ghost use Rattle.pcm_base.specs.declared.state.State.TheVariants.{Prepared, Running, Setup};
ghost use Rattle.pcm_base.specs.model.Allowed.{buffer_of, frame_bytes_of, shape_of};
ghost use Rattle.pcm_base.specs.model.Stream.{Stream};
ghost use Rattle.pcm_stream.specs.Members.{numbers_of};
ghost use Rattle.pcm_group.specs.Inside.{members_in};
ghost use Rattle.wav_file.specs.Grammar.{CanWrite};
ghost use Rattle.wav_file.specs.Recordings.{recording};
ghost use Rattle.play_record.specs.declared.error.PlayError.TheVariants as play_error;
ghost use Rattle.play_record.specs.Devices.{HasTaken, IsAt, IsDevice, taken_by};
ghost use Rattle.play_record.specs.Sounds.{config_for as the_config, frame_count, is_accepted, most_bytes, played, played_bytes as bytes_played, silent_byte, whole_periods};
ghost use Rattle.play_record.specs.Stages.{IsSized, long_max, plays};
ghost use Rattle.play_record.specs.Steps.{CanMoveOn, moved_on};

use crate::device::{CLIENT, move_on, set_up, step, substream, taken};
use crate::error::PlayError;
use crate::sound::{MOST_BYTES, accepted, config_for, played_bytes};
use pcm_base::{Call, Card, Errno, Layout, Mode, Shape, SubId};
use pcm_format::silence_of;
use pcm_group::Group;
use pcm_laws::{ring, transfer};
use std::alloc::Global;
use wav_file::Wav;

// The bytes of the sound from a place on, and silence behind its end.
fn fill_piece(piece: &mut [u8], frames: &[u8], start: usize, silence: u8)
    requires { start ≤ length frames.now }
    ensures { (k : ℕ) → start + length piece.old ≤ length frames.now + k → piece.new ≡ take (length piece.old) (drop start (frames.now ++ replicate k silence)) }
{
    let rest = &frames[start..];
    let count = rest.len().min(piece.len());
    let (front, back) = piece.split_at_mut(count);
    front.copy_from_slice(&rest[..count]);
    back.fill(silence);
}

// The client writes the piece of this number, so many whole frames; the first of all starts the card.
fn write_piece<C: Card>(group: &mut Group<C>, sub: SubId, wav: &Wav, piece: &mut [u8], number: u64)
    requires device { (s : Stream) × IsAt sub s (members_in group.old) }
    requires start { number * length piece.old ≤ length wav.now.frames.items }
    ensures first { (g : Configuration) (n k : ℕ) → IsSized g → length piece.old ≡ n * frame_bytes_of g → 1 ≤ n → n ≤ buffer_of g → number ≡ 0
        → length piece.old ≤ length wav.now.frames.items + k
        → IsAt sub (plays g (wav.now.frames.items ++ replicate k (silent_byte wav.now.format)) Prepared false 0 0 0) (members_in group.old)
        → IsAt sub (plays g (wav.now.frames.items ++ replicate k (silent_byte wav.now.format)) Running true 0 n 0) (members_in group.new) }
    ensures next { (g : Configuration) (n k c : ℕ) → IsSized g → length piece.old ≡ n * frame_bytes_of g → 1 ≤ n → c < number * n → number * n + n ≤ c + buffer_of g
        → number * length piece.old + length piece.old ≤ length wav.now.frames.items + k
        → IsAt sub (plays g (wav.now.frames.items ++ replicate k (silent_byte wav.now.format)) Running true c (number * n) c) (members_in group.old)
        → IsAt sub (plays g (wav.now.frames.items ++ replicate k (silent_byte wav.now.format)) Running true c (number * n + n) c) (members_in group.new) }
    ensures length { length piece.new ≡ length piece.old }
    ensures numbers { numbers_of (members_in group.new) ≡ numbers_of (members_in group.old) }
{
    ring::puts();
    ring::runs();
    transfer::writes();
    transfer::plain_writes();
    let start = number as usize * piece.len();
    fill_piece(piece, &wav.frames, start, silence_of(wav.format));
    let call = Call::Write(Layout::Interleaved, Mode::NonBlock);
    let _ = step(group, sub, CLIENT, call, piece);
}

// Where so many pieces have filled the buffer, the card moves on. `Memory` alone can come.
fn make_room<C: Card>(
    group: &mut Group<C>,
    sub: SubId,
    shape: &Shape,
    written: u64,
) -> Result<(), PlayError>
    requires { (s : Stream) × IsAt sub s (members_in group.old) × (shape.now.periods ≤ written → CanMoveOn shape.now.period s) }
    ensures ok { (s : Stream) → IsAt sub s (members_in group.old) → (shape.now.periods ≤ written → CanMoveOn shape.now.period s)
        → OnOk result (IsAt sub (if nat_lt written shape.now.periods then s else moved_on shape.now.period s) (members_in group.new)) }
    ensures memory { IfErr result (λ e. e ≡ play_error.Memory) }
    ensures numbers { numbers_of (members_in group.new) ≡ numbers_of (members_in group.old) }
{
    if written < shape.periods {
        return Ok(());
    }
    move_on(group, sub, shape.period)
}

// The client writes the sound in so many pieces of a period; once the buffer is full, the card moves on before each.
fn write_all<C: Card>(
    alloc: Global,
    group: &mut Group<C>,
    sub: SubId,
    wav: &Wav,
    shape: &Shape,
    count: u64,
) -> Result<(), PlayError>
    requires sized { IsSized (the_config (recording wav.now) shape.now.period shape.now.periods) }
    requires shape { shape.now ≡ shape_of (the_config (recording wav.now) shape.now.period shape.now.periods) long_max }
    requires sound { CanWrite (recording wav.now) }
    requires some { 1 ≤ count }
    requires whole { count * shape.now.period ≡ whole_periods shape.now.period (frame_count (recording wav.now)) }
    requires most { bytes_played shape.now.period (recording wav.now) ≤ most_bytes }
    requires device { IsAt sub (plays (the_config (recording wav.now) shape.now.period shape.now.periods) (played shape.now.period (recording wav.now)).frames Prepared false 0 0 0) (members_in group.old) }
    ensures ok { OnOk result (IsAt sub (plays (the_config (recording wav.now) shape.now.period shape.now.periods) (played shape.now.period (recording wav.now)).frames Running true
        ((count - shape.now.periods) * shape.now.period) (count * shape.now.period) ((count - shape.now.periods) * shape.now.period)) (members_in group.new)) }
    ensures memory { IfErr result (λ e. e ≡ play_error.Memory) }
    ensures numbers { numbers_of (members_in group.new) ≡ numbers_of (members_in group.old) }
{
    ring::puts();
    ring::runs();
    let size = shape.period * shape.frame_bytes;
    let mut piece = vec![in alloc; 0u8; size as usize]?;
    write_piece(group, sub, wav, &mut piece, 0);
    for written in 1..count {
        make_room(group, sub, shape, written)?;
        write_piece(group, sub, wav, &mut piece, written);
    }
    Ok(())
}

// The client drains the device, to which so many pieces were written, and the card moves on until all are taken.
fn drain<C: Card>(
    group: &mut Group<C>,
    sub: SubId,
    shape: &Shape,
    count: u64,
) -> Result<(), PlayError>
    requires some { 1 ≤ count }
    requires device { (g : Configuration) × (bytes : List ℕ) × IsSized g × (shape.now ≡ shape_of g long_max) × (count * g.period * frame_bytes_of g ≤ most_bytes)
        × IsAt sub (plays g bytes Running true ((count - g.periods) * g.period) (count * g.period) ((count - g.periods) * g.period)) (members_in group.old) }
    ensures ok { (g : Configuration) (bytes : List ℕ) → IsSized g → shape.now ≡ shape_of g long_max → count * g.period * frame_bytes_of g ≤ most_bytes
        → IsAt sub (plays g bytes Running true ((count - g.periods) * g.period) (count * g.period) ((count - g.periods) * g.period)) (members_in group.old)
        → OnOk result (IsAt sub (plays g bytes Setup false (count * g.period) (count * g.period) (count * g.period)) (members_in group.new)) }
    ensures memory { IfErr result (λ e. e ≡ play_error.Memory) }
    ensures numbers { numbers_of (members_in group.new) ≡ numbers_of (members_in group.old) }
{
    ring::puts();
    ring::runs();
    let _ = step(group, sub, CLIENT, Call::Drain(Mode::NonBlock), &mut []);
    for _played in count.saturating_sub(shape.periods)..count {
        move_on(group, sub, shape.period)?;
    }
    Ok(())
}

// The prepared device plays the sound in so many pieces of a period.
fn play_out<C: Card>(
    alloc: Global,
    group: &mut Group<C>,
    sub: SubId,
    wav: &Wav,
    shape: &Shape,
    count: u64,
) -> Result<(), PlayError>
    requires sized { IsSized (the_config (recording wav.now) shape.now.period shape.now.periods) }
    requires shape { shape.now ≡ shape_of (the_config (recording wav.now) shape.now.period shape.now.periods) long_max }
    requires sound { CanWrite (recording wav.now) }
    requires whole { count * shape.now.period ≡ whole_periods shape.now.period (frame_count (recording wav.now)) }
    requires most { bytes_played shape.now.period (recording wav.now) ≤ most_bytes }
    requires device { IsAt sub (plays (the_config (recording wav.now) shape.now.period shape.now.periods) (played shape.now.period (recording wav.now)).frames Prepared false 0 0 0) (members_in group.old) }
    ensures ok { OnOk result (HasTaken (played shape.now.period (recording wav.now)).frames (members_in group.new)) }
    ensures memory { IfErr result (λ e. e ≡ play_error.Memory) }
    ensures numbers { numbers_of (members_in group.new) ≡ numbers_of (members_in group.old) }
{
    if count == 0 {
        return Ok(());
    }
    write_all(alloc, group, sub, wav, shape, count)?;
    drain(group, sub, shape, count)
}

/// Plays the sound through the group, whose one substream is open, in `periods` periods of `period` frames each: the client
/// writes until the buffer is full, and the card moves on by a period and interrupts; then the rest is drained. Gives what
/// the card has taken, which is the sound's frames and silence up to a whole period.
///
/// `Refused` comes exactly where the card's model has no such configuration, `TooMuch` exactly where the frames that the card
/// would take have more than 67,108,864 bytes; both change nothing. After `Memory` the substream may stand anywhere. This
/// project's own.
pub fn play<C: Card>(
    alloc: Global,
    group: &mut Group<C>,
    wav: &Wav,
    period: u64,
    periods: u64,
) -> Result<Wav, PlayError>
    requires device { IsDevice Playback (members_in group.old) }
    requires sound { CanWrite (recording wav.now) }
    ensures played { IfOk result (λ given. recording given ≡ played period (recording wav.now)) }
    ensures taken { IfOk result (λ given. taken_by (members_in group.new) ≡ given.frames.items ∷ []) }
    ensures refused { (e : ErrnoOf) → (result ≡ Err (play_error.Refused e)) ↔ ((is_accepted (recording wav.now) period periods ≡ false) × (e ≡ Errno.Einval)) }
    ensures too_much { (n : ℕ) → (result ≡ Err (play_error.TooMuch n))
        ↔ ((is_accepted (recording wav.now) period periods ≡ true) × (most_bytes < bytes_played period (recording wav.now)) × (n ≡ bytes_played period (recording wav.now))) }
    ensures kept { IfErr result (λ e. e ≢ play_error.Memory → members_in group.new ≡ members_in group.old) }
    ensures numbers { numbers_of (members_in group.new) ≡ numbers_of (members_in group.old) }
{
    let config = config_for(wav, period, periods);
    let shape = accepted(&config)?;
    let bytes = played_bytes(wav, period);
    if bytes > MOST_BYTES {
        return Err(PlayError::TooMuch(bytes));
    }
    let sub = substream(group);
    set_up(group, sub, &config)?;
    let _ = step(group, sub, CLIENT, Call::Prepare, &mut []);
    let count = bytes / (shape.period * shape.frame_bytes);
    play_out(alloc, group, sub, wav, &shape, count)?;
    Ok(Wav {
        format: wav.format,
        channels: wav.channels,
        rate: wav.rate,
        frames: taken(alloc, group)?,
    })
}
