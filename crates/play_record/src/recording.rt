// Recording a sound.
ghost use Rattle.std.specs.Prelude.{◌≡◌, ◌≢◌, ◌↔◌, ◌<◌, ◌≤◌, ◌+◌, ◌*◌, ◌/◌, ◌%◌, [], ℕ, List, drop, length, replicate, true, false, IfOk, IfErr, OnOk};
ghost use Rattle.pcm_base.specs.declared.config.Config.{Config as Configuration};
ghost use Rattle.pcm_base.specs.declared.state.Dir.TheVariants.{Capture};
ghost use Rattle.pcm_base.specs.declared.state.Errno.{Errno as ErrnoOf};
ghost use Rattle.pcm_base.specs.declared.state.State.TheVariants.{Running, Setup};
ghost use Rattle.pcm_base.specs.model.Allowed.{frame_bytes_of};
ghost use Rattle.pcm_base.specs.model.Events.{setup_of};
ghost use Rattle.pcm_base.specs.model.Frame.{Frame, bytes_of, frames_of};
ghost use Rattle.pcm_base.specs.model.Movement.{padded};
ghost use Rattle.pcm_base.specs.model.Stream.{Stream};
ghost use Rattle.pcm_stream.specs.Members.{numbers_of};
ghost use Rattle.pcm_group.specs.Inside.{members_in};
ghost use Rattle.wav_file.specs.Grammar.{CanWrite};
ghost use Rattle.wav_file.specs.Recordings.{recording};
ghost use Rattle.play_record.specs.declared.error.PlayError.TheVariants as play_error;
ghost use Rattle.play_record.specs.Devices.{HasMoved, IsAt, IsDevice};
ghost use Rattle.play_record.specs.Sounds.{bytes_of_frames, is_accepted, most_bytes, recorded, shown_count};
ghost use Rattle.play_record.specs.Stages.{IsSized, device_at, long_max, records};

use crate::device::{CLIENT, move_on, set_up, step, substream};
use crate::error::PlayError;
use crate::sound::{MOST_BYTES, accepted, config_for, recorded_bytes};
use pcm_base::{Call, Card, Errno, Layout, Mode, Reply, SubId};
use pcm_group::Group;
use pcm_laws::{ring, transfer};
use std::alloc::Global;
use wav_file::Wav;

// The frames of a period, and the periods of the buffer.
const PERIOD: u64 = 256;

const PERIODS: u64 = 4;

// The card is given a copy of these bytes, which are whole frames. `Memory` alone can come.
fn give<C: Card>(
    alloc: Global,
    group: &mut Group<C>,
    sub: SubId,
    bytes: &[u8],
) -> Result<(), PlayError>
    requires device { (s : Stream) × IsAt sub s (members_in group.old) }
    ensures ok { (g : Configuration) → length bytes.now % frame_bytes_of g ≡ 0 → IsAt sub (device_at Capture (setup_of g long_max) Setup false 0 0 0 [] [] []) (members_in group.old)
        → OnOk result (IsAt sub (device_at Capture (setup_of g long_max) Setup false 0 0 0 [] [] (frames_of (length bytes.now / frame_bytes_of g) (frame_bytes_of g) bytes.now)) (members_in group.new)) }
    ensures memory { IfErr result (λ e. e ≡ play_error.Memory) }
    ensures numbers { numbers_of (members_in group.new) ≡ numbers_of (members_in group.old) }
{
    let mut copy = bytes.to_vec(alloc)?;
    match step(group, sub, None, Call::Give, &mut copy) {
        Reply::Ok => Ok(()),
        _ => Err(PlayError::Memory),
    }
}

// The card moves on by a period, and the client reads so many of the frames that have come. `Memory` alone can come.
fn record_piece<C: Card>(
    group: &mut Group<C>,
    sub: SubId,
    frames: u64,
    piece: &mut [u8],
) -> Result<(), PlayError>
    requires some { 1 ≤ frames }
    requires few { frames ≤ 256 }
    requires device { (g : Configuration) × (given : List Frame) × (c : ℕ) × IsSized g × (g.period ≡ 256) × (length piece.old ≡ frames * frame_bytes_of g)
        × IsAt sub (records g given Running true c c c) (members_in group.old) }
    ensures ok { (g : Configuration) (given : List Frame) (c : ℕ) → IsSized g → g.period ≡ 256 → length piece.old ≡ frames * frame_bytes_of g
        → IsAt sub (records g given Running true c c c) (members_in group.old)
        → OnOk result (IsAt sub (records g given Running true (c + 256) (c + frames) (c + 256)) (members_in group.new)
        × (piece.new ≡ bytes_of (padded frames (drop c given) (replicate (frame_bytes_of g) 0)))) }
    ensures memory { IfErr result (λ e. e ≡ play_error.Memory) }
    ensures numbers { numbers_of (members_in group.new) ≡ numbers_of (members_in group.old) }
{
    ring::puts();
    ring::runs();
    transfer::reads();
    move_on(group, sub, PERIOD)?;
    let call = Call::Read(Layout::Interleaved, Mode::NonBlock, frames);
    let _ = step(group, sub, CLIENT, call, piece);
    Ok(())
}

// So many frames are recorded, each of so many bytes, a period at a time. `Memory` alone can come.
fn record_all<C: Card>(
    group: &mut Group<C>,
    sub: SubId,
    frames: u64,
    frame: usize,
    out: &mut [u8],
) -> Result<(), PlayError>
    requires length { length out.old ≡ frames * frame }
    requires most { frames * frame ≤ most_bytes }
    requires some { 1 ≤ frame }
    requires device { (g : Configuration) × (given : List Frame) × IsSized g × (g.period ≡ 256) × (frame ≡ frame_bytes_of g)
        × IsAt sub (records g given Running true 0 0 0) (members_in group.old) }
    ensures ok { (g : Configuration) (given : List Frame) → IsSized g → g.period ≡ 256 → frame ≡ frame_bytes_of g
        → IsAt sub (records g given Running true 0 0 0) (members_in group.old)
        → OnOk result (HasMoved frames (members_in group.new) × (out.new ≡ bytes_of (padded frames given (replicate frame 0)))) }
    ensures memory { IfErr result (λ e. e ≡ play_error.Memory) }
    ensures numbers { numbers_of (members_in group.new) ≡ numbers_of (members_in group.old) }
{
    for number in 0..frames.div_ceil(PERIOD) {
        let done = number * PERIOD;
        let count = PERIOD.min(frames - done);
        let start = done as usize * frame;
        let piece = &mut out[start..start + count as usize * frame];
        record_piece(group, sub, count, piece)?;
    }
    Ok(())
}

/// Records so many frames through the group, whose one substream is open and whose card is given the sound, in 4 periods of
/// 256 frames: the card moves on by a period and interrupts, and the client reads what has come. Gives the frames that were
/// read: the first ones of the sound, zero frames past its end.
///
/// `Refused` comes exactly where the card's model has no such configuration, `TooMuch` exactly where the frames have more
/// than 67,108,864 bytes; both change nothing. After `Memory` the substream may stand anywhere. This project's own.
pub fn record_frames<C: Card>(
    alloc: Global,
    group: &mut Group<C>,
    wav: &Wav,
    frames: u64,
) -> Result<Wav, PlayError>
    requires device { IsDevice Capture (members_in group.old) }
    requires sound { CanWrite (recording wav.now) }
    ensures recorded { IfOk result (λ given. recording given ≡ recorded frames (recording wav.now)) }
    ensures moved { OnOk result (HasMoved frames (members_in group.new)) }
    ensures refused { (e : ErrnoOf) → (result ≡ Err (play_error.Refused e)) ↔ ((is_accepted (recording wav.now) 256 4 ≡ false) × (e ≡ Errno.Einval)) }
    ensures too_much { (n : ℕ) → (result ≡ Err (play_error.TooMuch n))
        ↔ ((is_accepted (recording wav.now) 256 4 ≡ true) × (most_bytes < bytes_of_frames frames (recording wav.now)) × (n ≡ shown_count (bytes_of_frames frames (recording wav.now)))) }
    ensures kept { IfErr result (λ e. e ≢ play_error.Memory → members_in group.new ≡ members_in group.old) }
    ensures numbers { numbers_of (members_in group.new) ≡ numbers_of (members_in group.old) }
{
    let config = config_for(wav, PERIOD, PERIODS);
    let shape = accepted(&config)?;
    let bytes = recorded_bytes(wav, frames);
    if bytes > MOST_BYTES {
        return Err(PlayError::TooMuch(bytes));
    }
    let size = bytes as usize;
    let mut out = vec![in alloc; 0u8; size]?;
    let sub = substream(group);
    set_up(group, sub, &config)?;
    give(alloc, group, sub, &wav.frames[..size.min(wav.frames.len())])?;
    let _ = step(group, sub, CLIENT, Call::Prepare, &mut []);
    let _ = step(group, sub, CLIENT, Call::Start, &mut []);
    record_all(group, sub, frames, shape.frame_bytes as usize, &mut out)?;
    Ok(Wav {
        format: wav.format,
        channels: wav.channels,
        rate: wav.rate,
        frames: out,
    })
}
